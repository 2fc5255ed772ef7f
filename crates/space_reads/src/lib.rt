//! The calls that read a space: of space.rs's `CapabilitySpace` those that find entries, with `entries` and `iter_capabilities` as the n-th
//! entry, and those that say what the space is, on the world's memory. A lookup counts its hit or miss and the use of its entry; nothing
//! else changes. No call asks anything of its arguments or of the memory: each looks first, and refuses by the table of answers.
#![tactic(auto)]

mod entries;
mod facts;

pub use entries::{check_rights, get_entry, lookup, lookup_entry, nth_entry};
pub use facts::{generation, quota, stats, table_capacity, used};
use table::CapabilityEntry;

/// An entry, and the slots that the search for it visited.
#[derive(Clone, Copy, PartialEq, Eq, Debug)]
pub struct FoundEntry {
    pub entry: CapabilityEntry,
    pub visits: usize,
}

/// The statistics of a space: its counted lookups, those that found the capability and those that did not, and its entries.
#[derive(Clone, Copy, PartialEq, Eq, Debug)]
pub struct SpaceStats {
    pub hits: u64,
    pub misses: u64,
    pub total_caps: u64,
}
