// What holds over whole histories of calls, refused ones among them. There is nothing to run here: the calls are in the crates that this
// one stands on, a history is defined in specs/, and specs/Promises.antt states what proofs/Promises.antt proves.

#![tactic(auto)]
