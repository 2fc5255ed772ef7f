//! The calls of the manager: every public function of manager.rs but `revoke` and `delegate`, and of revocation.rs `get_children` and
//! `derivation_tree_stats`, on the world's memory; and the census of a space. No call asks anything of its arguments or of the memory: each
//! looks first, and refuses by the table of answers. `admit` and `tokens` are no calls: they are what create and check have in common with
//! `delegation_calls`.
#![tactic(auto)]

pub mod admit;
mod check;
mod creation;
mod deletion;
mod read;
pub mod tokens;

pub use check::{check_capability, is_valid};
pub use creation::create_capability;
pub use deletion::delete;
pub use read::{census, derivation_tree_stats, get_children, stats};

/// The statistics of the manager: capabilities created, delegated, revoked and deleted since the opening.
#[derive(Clone, Copy, PartialEq, Eq, Debug)]
pub struct ManagerStats {
    pub created: u64,
    pub delegated: u64,
    pub revoked: u64,
    pub deleted: u64,
}

/// How many capabilities have a list of delegations, and how many delegations there are.
#[derive(Clone, Copy, PartialEq, Eq, Debug)]
pub struct Tree {
    pub parents: u64,
    pub children: u64,
}
