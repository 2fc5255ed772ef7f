// Document 01's rows P1 to P9. There is nothing to run here: specs/Rows.antt has the rows as one list of claims about the definitions of
// the crates below, and proofs/Rows.antt proves that all of them hold.

#![tactic(auto)]
