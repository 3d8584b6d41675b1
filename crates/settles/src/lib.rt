// No code: demand 3, stated in specs/ over the definitions that the promises of the sources and the sink cite, and proved in proofs/.
#![tactic(auto)]
