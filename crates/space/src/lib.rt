// One capability space: space.rs's `CapabilitySpace` on the words that hold it (specs/Words.antt). What the source keeps behind locks
// and atomics are plain words here; the slots of its table, from word 8 on, are the crate `table`'s.
#![tactic(auto)]

mod change;
mod copy;
mod counters;
mod find;
mod ids;
mod sound;
mod view;
mod words;

pub use change::{clear, insert, next_generation, remove};
pub use copy::replace;
pub use find::lookup;
pub use sound::is_sound;
use table::CapabilityEntry;
pub use view::Space;
pub use words::{SLOTS, TABLE};

// The entry that a call found, if it found one, and the slots that its search visited.
#[derive(Clone, Copy, PartialEq, Eq, Debug)]
pub struct LookedUp {
    pub got: Option<CapabilityEntry>,
    pub visits: usize,
}
