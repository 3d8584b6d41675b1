// Theorems about a sink that stands at its source's offset: a unit hands back the containers that the source says ended. No code.
// The definitions stand in specs/InOrder.antt.
#![tactic(auto)]
