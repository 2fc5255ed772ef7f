//! The numbers of an opening: where the memory has them, and their ranges.
ghost use Rattle.std.specs.Prelude.{◌≡◌, ◌≤◌, length};
ghost use Rattle.world.specs.Numbers.{numbers_of, in_range_test};

use crate::Numbers;

// The words of the head behind the numbers: the next id, the epoch of the log, the four statistics of the manager, and how many ids are
// registered, how many recycled, and how many pairs logged.
pub const NEXT: usize = 5;

pub const EPOCH: usize = 6;

pub const CREATED: usize = 7;

pub const DELEGATED: usize = 8;

pub const REVOKED: usize = 9;

pub const DELETED: usize = 10;

pub const REGISTERED: usize = 11;

pub const RECYCLED: usize = 12;

pub const LOGGED: usize = 13;

/// The numbers that memory was opened with: its first five words.
pub fn numbers(mem: &[u64]) -> Numbers
    requires { 16 ≤ length mem.now }
    ensures { result ≡ numbers_of mem.now }
{
    Numbers {
        spaces: mem[0] as usize,
        most: mem[1] as usize,
        places: mem[2] as usize,
        pairs: mem[3] as usize,
        queues: mem[4] as usize,
    }
}

/// Every number is in its range.
#[tactic(auto, unfolding(crate::specs::Numbers::in_range_test))]
pub fn in_range(d: Numbers) -> bool
    ensures { result ≡ in_range_test d }
{
    (1..=64).contains(&d.spaces)
        && (1..=256).contains(&d.most)
        && (1..=4095).contains(&d.places)
        && (1..=8192).contains(&d.pairs)
        && (1..=32).contains(&d.queues)
}
