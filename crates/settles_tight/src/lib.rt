// No code: a run in which exactly 66 units end unsettled, and that demand 3 cannot be had with 65. The run is defined in specs/Runs.antt.
#![tactic(auto)]
