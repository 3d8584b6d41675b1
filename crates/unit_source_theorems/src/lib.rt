// Theorems about the units of one source, called again and again: what they carry is its containers, in order. No code.
// The run is defined in specs/Stream.antt, over the very definition that the unit source's promise cites.
#![tactic(auto)]
