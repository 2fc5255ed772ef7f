// The call of the manager that derives: manager.rs's `delegate`, on the world's memory. It asks nothing of its arguments or of the memory:
// it looks first, and refuses by the table of answers.
#![tactic(auto)]

mod delegation;
mod derive;
mod offer;

pub use delegation::delegate;
