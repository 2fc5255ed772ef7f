// What a program in C or Rust calls of a world and its spaces: opening, the look, and the calls of a space, by plain names, numbers in,
// numbers out. The contract of each cites the same definition as the call's own.
#![tactic(auto, unfolding(host_replies::specs::Replies::told))]

mod spaces;
mod worlds;
