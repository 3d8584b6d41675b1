// No code: theorems over the definitions of the container source and of the payload call, in proofs/.
#![tactic(auto)]
