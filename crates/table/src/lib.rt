// The hash table of a space: space.rs's `CapTable`, open addressing with linear walks, keyed by capability id.
// Its slots stand in words that the caller lends, four words a slot (specs/Slots.antt); what the source keeps beside its slots is a
// `CapTable` that goes in by value and comes back by value. Of document 01's "Table of a space (001)" the rules of home, walks, rebuild,
// placing, removing and copying are here, in specs/; lookup, quota, generation and holders are in the crates above.
#![tactic(auto)]

mod copy;
mod insert;
mod remove;
mod view;
mod walk;
mod words;

pub use copy::copy_from;
pub use insert::{id_of, insert_new, slots_for};
pub use remove::remove_at;
use token::{CapabilityToken, Rights};
pub use view::Table;
pub use words::{entry_at, id_at, is_kind, kind_at, slot_at};

// A single capability entry.
#[derive(Clone, Copy, PartialEq, Eq, Debug)]
pub struct CapabilityEntry {
    pub capability: CapabilityToken,
    pub object: u64,
    pub rights: Rights,
    // How often it was looked up.
    pub uses: u64,
}

// What a slot can be, by the number in its tag. No sound table has another number there; a walk goes on past it.
#[derive(Clone, Copy, PartialEq, Eq, Debug)]
pub enum Kind {
    Empty = 0,
    Removed = 1,
    Full = 2,
}

// One slot, with its entry where it holds one. A walk goes on past a removed entry's mark.
#[derive(Clone, Copy, PartialEq, Eq, Debug)]
pub enum Slot {
    Empty,
    Tombstone,
    Full(CapabilityEntry),
}

// What a table is beside its slots: how many there are, how many are full, how many hold a removed entry's mark.
#[derive(Clone, Copy, PartialEq, Eq, Debug)]
pub struct CapTable {
    pub slots: usize,
    pub full: usize,
    pub tombstones: usize,
}

impl CapTable {
    // A table with nothing in it.
    pub const EMPTY: Self = Self {
        slots: 0,
        full: 0,
        tombstones: 0,
    };
}

// The slot where a search found its id, if it did, and the slots that it visited.
#[derive(Clone, Copy, PartialEq, Eq, Debug)]
pub struct Search {
    pub found: Option<usize>,
    pub visits: usize,
}

// The table after an insert or a copy, and the entries that its rebuilds moved.
#[derive(Clone, Copy, PartialEq, Eq, Debug)]
pub struct Inserted {
    pub table: CapTable,
    pub moved: usize,
}

// The table after a removal, and what left.
#[derive(Clone, Copy, PartialEq, Eq, Debug)]
pub struct Removed {
    pub table: CapTable,
    pub left: Option<CapabilityEntry>,
}
