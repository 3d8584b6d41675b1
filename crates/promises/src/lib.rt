// No code: that each public promise allows one outcome only, in proofs/.
#![tactic(auto)]
