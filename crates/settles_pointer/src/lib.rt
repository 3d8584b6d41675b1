// Theorems about the pointer of a sink fed by one unit source: it locks to the source's offset, and then takes every word as the source means it. No code.
#![tactic(auto)]
