// Theorems about the monitor: the containers of one source settle it, whatever its state. No code.
#![tactic(auto)]
