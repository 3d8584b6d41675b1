// Theorems about the import and the export: a line is accepted exactly if it is written as the grammar says, an unquoted trace never; what is exported from a good
// catalogue and imported again is the same bytes; of a text that is too long its beginning decides; and the line of a refusal is no good catalogue. They stand in proofs/; there is no code.
#![tactic(auto)]
