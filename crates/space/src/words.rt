// The words of a space, read and written.
ghost use Rattle.std.specs.Prelude.{◌≡◌, ◌≤◌, length, slice_set};
ghost use Rattle.space.specs.Words.{quota_of, generation_of, hits_of, misses_of, table_of, with_counts, InRange};
ghost use Rattle.space.specs.Counters.{counters_of, with_counters};

use super::counters::Counters;
use table::CapTable;

pub const QUOTA: usize = 0;

pub const GENERATION: usize = 1;

pub const HITS: usize = 2;

pub const MISSES: usize = 3;

pub const SLOTS: usize = 5;

pub const LIVE: usize = 6;

const REMOVED: usize = 7;

// Where the slots of the table begin.
pub const TABLE: usize = 8;

#[tactic(auto, unfolding(crate::specs::Counters::with_counters))]
pub fn put_counters(sp: &mut [u64], c: Counters)
    requires { 8 ≤ length sp.old }
    ensures { sp.new ≡ with_counters sp.old c }
{
    sp[HITS] = c.hits;
    sp[MISSES] = c.misses;
}

pub fn table_of(sp: &[u64]) -> CapTable
    requires { 8 ≤ length sp.now }
    ensures { result ≡ table_of sp.now }
{
    CapTable {
        slots: sp[SLOTS] as usize,
        full: sp[LIVE] as usize,
        tombstones: sp[REMOVED] as usize,
    }
}

#[tactic(auto, unfolding(crate::specs::Words::with_counts))]
pub fn put_table(sp: &mut [u64], t: CapTable)
    requires { 8 ≤ length sp.old }
    ensures { sp.new ≡ with_counts sp.old t }
{
    sp[SLOTS] = t.slots as u64;
    sp[LIVE] = t.full as u64;
    sp[REMOVED] = t.tombstones as u64;
}

pub fn put_generation(sp: &mut [u64], generation: u8)
    requires { 8 ≤ length sp.old }
    ensures { sp.new ≡ slice_set sp.old 1 generation }
{
    sp[GENERATION] = generation as u64;
}
