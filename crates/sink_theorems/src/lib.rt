// Theorems about the sink: the states that calls can reach, what a refusal leaves, which causes stand together, what the columns of parity show of a damage. No code; the definitions stand in specs/.
#![tactic(auto)]
