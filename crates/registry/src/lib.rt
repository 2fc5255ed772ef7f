// The registry of ids on its own slice of words: ids registered, recycled and collected, their holders, and who was derived from whom.
#![tactic(auto)]

pub mod children;
pub mod descent;
pub mod holders;
pub mod ids;
pub mod registering;
pub mod view;
