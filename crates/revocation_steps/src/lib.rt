// The steps that revocation is made of: the log, the queues, and the registry with the descendants of an id, each lent its region of the
// world's memory. What a step does is a definition over the whole memory (specs/); a cascade keeps a sound memory sound (proofs/laws).
#![tactic(auto)]

pub mod descent;
pub mod log;
pub mod queues;
