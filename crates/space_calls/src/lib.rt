//! The calls that change a space: of space.rs's `CapabilitySpace` those that insert, remove, clear, copy, create and revoke, and the one
//! that counts its generation up; and `alloc_cap_id` of token.rs, on the world's memory. No call asks anything of its arguments or of the
//! memory: each looks first, and refuses by the table of answers. The calls that read a space, counted lookups among them, are in
//! `space_reads`.
#![tactic(auto)]

mod changes;
mod ids;

pub use changes::{clear, copy, increment_generation, insert, remove, revoke_all};
pub use ids::{alloc_cap_id, create_capability, revoke};
