//! The world: the memory that the caller lends, how it is cut into regions, and how it is opened. The one look over it that every call
//! takes first is in `world_look`.
#![tactic(auto)]

pub mod head;
pub mod open;
pub mod regions;

/// The numbers of an opening: S spaces, M the largest quota, R registry places, V log places, P queues.
#[derive(Clone, Copy, PartialEq, Eq, Debug)]
pub struct Numbers {
    pub spaces: usize,
    pub most: usize,
    pub places: usize,
    pub pairs: usize,
    pub queues: usize,
}
