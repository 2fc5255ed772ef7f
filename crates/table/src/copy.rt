// The n-th live entry, and copying a table into another.
ghost use Rattle.std.specs.Prelude.{◌≡◌, [], ◌∷◌, ◌*◌, ◌^◌, ◌≤◌, length};
ghost use Rattle.table.specs.Insert.{slots_for, live_entries, scratch_entries, leaves, none, Insertable};
ghost use Rattle.table.specs.Copy.{nth_of, insert_all};

use super::insert::{crowded, make_room, place};
use super::view::Table;
use super::words::{entry_at, slot_at};
use super::{CapTable, CapabilityEntry, Inserted, Slot};

impl<'a> Table<'a> {
    // The n-th live entry in slot order, n from 0.
    pub fn nth_entry(&self, n: usize) -> Option<CapabilityEntry>
        ensures { result ≡ nth_of (live_entries self.now.words.now 0 self.now.slots) n }
    {
        let mut past = n;
        for i in 0..self.slots {
            if let Slot::Full(entry) = slot_at(self.words, i) {
                if past == 0 {
                    return Some(entry);
                }
                past -= 1;
            }
        }
        None
    }
}

// One entry of a copy: inserted with its uses zeroed, its moves added.
fn copy_entry(words: &mut [u64], s: Inserted, entry: CapabilityEntry) -> Inserted
    requires { Insertable words.old s.table × (s.moved ≤ 2 ^ 32) }
    ensures { leaves words.new result ≡ insert_all (entry ∷ []) (leaves words.old s) }
{
    let fresh = CapabilityEntry { uses: 0, ..entry };
    if crowded(s.table) {
        let room = make_room(words, s.table);
        let moved = s.moved + room.moved;
        return place(words, Inserted { moved, ..room }, fresh);
    }
    place(words, s, fresh)
}

// A table of the scratch's first `count` entries, over whatever the words held.
pub fn copy_from(words: &mut [u64], scratch: &[u64; 2048], count: usize) -> Inserted
    requires { (count ≤ 256) × (4 * slots_for count ≤ length words.old) }
    ensures { leaves words.new result
        ≡ insert_all (scratch_entries scratch.now 0 count) (record { words = words.old; counts = none; moved = 0 }) }
{
    let mut s = Inserted {
        table: CapTable::EMPTY,
        moved: 0,
    };
    for i in 0..count {
        s = copy_entry(words, s, entry_at(scratch, i));
    }
    s
}
