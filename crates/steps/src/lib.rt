// The steps that calls are made of. Each lends the regions of the world's memory to the functions of their structures; what a step does
// is a definition over the whole memory (specs/). Taking an id, every step on a space and every step of the registry, on its condition,
// keep a sound memory sound (proofs/laws); counting a holder is part of a step on a space. The code of the steps on a space is
// `space_steps`.
#![tactic(auto)]

pub mod enter;
pub mod holders;
pub mod ids;
pub mod registered;
pub mod replies;

pub use replies::{Done, Refused};

// The numbers of one space.
#[derive(Clone, Copy, PartialEq, Eq, Debug)]
pub struct Facts {
    pub quota: usize,
    pub generation: u8,
    pub hits: u64,
    pub misses: u64,
    pub slots: usize,
    pub used: usize,
}

// What a copy answers: the entries that its rebuilds moved and those that the target accepted.
#[derive(Clone, Copy, PartialEq, Eq, Debug)]
pub struct Copied {
    pub moved: usize,
    pub accepted: usize,
}
