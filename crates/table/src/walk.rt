// Walks over the slots: the search for an id, and the walk for a free place.
ghost use Rattle.std.specs.Prelude.{◌≡◌, ◌+◌, ◌*◌, ◌%◌, ◌≤◌, ◌<◌, eqb, length};
ghost use Rattle.base.specs.Choose.{both};
ghost use Rattle.table.specs.Slots.{id_at, is_live};
ghost use Rattle.table.specs.Walk.{home_of, search, search_from, got, free_for};

use super::view::Table;
use super::words::{entry_at, id_at, is_kind};
use super::{CapabilityEntry, Kind, Search};

// Fibonacci hashing: ids come one after the other, so it spreads them. Slot counts are powers of two, where the remainder is a mask.
pub fn home(id: u64, slots: usize) -> usize
    requires { (0 < slots) × (slots ≤ 512) }
    ensures { (result ≡ home_of id slots) × (result < slots) }
{
    let spread = (base::arith::wrapping_mul(id, 0x9E37_79B9_7F4A_7C15) / 0x1_0000_0000) as usize;
    let mask = slots - 1;
    if slots & mask == 0 {
        return spread & mask;
    }
    spread % slots
}

// The slot after i, around.
pub fn next(i: usize, slots: usize) -> usize
    requires { (i < slots) × (slots ≤ 512) }
    ensures { (result ≡ (i + 1) % slots) × (result < slots) }
{
    let up = i + 1;
    if up == slots {
        return 0;
    }
    up
}

// Slot i is live and has that id.
fn has_id(words: &[u64], i: usize, id: u64) -> bool
    requires { (i < 512) × (4 * i + 3 < length words.now) }
    ensures { result ≡ both (is_live words.now i) (eqb (id_at words.now i) id) }
{
    is_kind(words, i, Kind::Full) && id_at(words, i) == id
}

impl<'a> Table<'a> {
    // The search over n slots from slot `from` on.
    #[tactic(auto, using(crate::proofs::CodeWalk::find_laws))]
    fn find_from(&self, id: u64, from: usize, n: usize) -> Search
        requires { (from < self.now.slots) × (n ≤ self.now.slots) }
        ensures { (result ≡ search_from self.now.words.now self.now.slots id from n) × (result.visits ≤ n) }
    {
        let mut i = from;
        for passed in 0..n {
            if has_id(self.words, i, id) {
                return Search {
                    found: Some(i),
                    visits: passed + 1,
                };
            }
            if is_kind(self.words, i, Kind::Empty) {
                return Search {
                    found: None,
                    visits: passed + 1,
                };
            }
            i = next(i, self.slots);
        }
        Search {
            found: None,
            visits: n,
        }
    }

    // Most searches end at home, so home is looked at before any loop.
    #[tactic(auto, using(crate::proofs::CodeWalk::home_laws))]
    pub fn find(&self, id: u64) -> Search
        ensures { result ≡ search self.now.words.now self.now.slots id }
    {
        if self.slots == 0 {
            return Search {
                found: None,
                visits: 0,
            };
        }
        let home = home(id, self.slots);
        if has_id(self.words, home, id) {
            return Search {
                found: Some(home),
                visits: 1,
            };
        }
        if is_kind(self.words, home, Kind::Empty) {
            return Search {
                found: None,
                visits: 1,
            };
        }
        let rest = self.find_from(id, next(home, self.slots), self.slots - 1);
        Search {
            visits: rest.visits + 1,
            ..rest
        }
    }

    // The entry of the id, where a search finds it.
    pub fn get(&self, id: u64) -> Option<CapabilityEntry>
        ensures { result ≡ got self.now.words.now self.now.slots id }
    {
        let i = self.find(id).found?;
        Some(entry_at(self.words, i))
    }

    // The first slot that is not live on the walk of the id; where all are live, which no caller allows, its home.
    #[tactic(auto, using(crate::proofs::CodeWalk::free_laws))]
    pub fn free_for(&self, id: u64) -> usize
        requires { 0 < self.now.slots }
        ensures { (result ≡ free_for self.now.words.now self.now.slots id) × (result < self.now.slots) }
    {
        let mut i = home(id, self.slots);
        for _ in 0..self.slots {
            if !is_kind(self.words, i, Kind::Full) {
                return i;
            }
            i = next(i, self.slots);
        }
        i
    }
}
