// What puts entries into a table: placing, rebuilding, inserting.
ghost use Rattle.std.specs.Prelude.{◌≡◌, ◌+◌, ◌-◌, ◌*◌, ◌≤◌, ◌<◌, length};
ghost use Rattle.base.specs.Below.{one};
ghost use Rattle.table.specs.Slots.{id_of, is_removed};
ghost use Rattle.table.specs.Insert.{crowded, slots_for, room_for, emptied, holds, gathered, scratch_entries, live_entries, place_all, rebuilt, enlarged, placed, insert_new, leaves, Insertable, Placeable};

use super::view::Table;
use super::words::{entry_at, is_kind, put_entry, slot_at};
use super::{CapTable, CapabilityEntry, Inserted, Kind, Slot};

pub fn id_of(entry: CapabilityEntry) -> u64
    ensures { result ≡ id_of entry }
{
    entry.capability.id()
}

// True where one entry more would leave more than 3/4 of the slots in use, removed ones counted: every walk is to meet an empty slot.
#[tactic(auto, unfolding(crate::specs::Insert::crowded))]
pub fn crowded(t: CapTable) -> bool
    requires { (t.slots ≤ 512) × (t.full ≤ 512) × (t.tombstones ≤ 512) }
    ensures { result ≡ crowded t }
{
    3 * t.slots < 4 * (t.full + t.tombstones + 1)
}

// The slots of the largest table that rebuilds can make on the way to that many entries.
pub fn slots_for(entries: usize) -> usize
    requires { entries ≤ 256 }
    ensures { (result ≡ slots_for entries) × (8 ≤ result) × (result ≤ 512) }
{
    (base::arith::next_power_of_two(2 * entries as u64) as usize).max(8)
}

// The slots of a rebuild of a table with `live` entries, which is to take one more.
#[tactic(auto, unfolding(crate::specs::Insert::room_for))]
fn room_for(live: usize) -> usize
    requires { live < 256 }
    ensures { (result ≡ room_for live) × (8 ≤ result) × (result ≤ 512) }
{
    slots_for(live + 1)
}

#[tactic(auto, using(crate::proofs::CodeRebuild::empty_laws))]
fn empty_slots(words: &mut [u64], n: usize)
    requires { (n ≤ 512) × (4 * n ≤ length words.old) }
    ensures { words.new ≡ emptied words.old n }
{
    for i in 0..n {
        words[4 * i + 3] = 0;
    }
}

// A live slot's entry joins the scratch; any other slot leaves it as it is.
fn gather_slot(words: &[u64], i: usize, scratch: &mut [u64; 2048], count: usize) -> usize
    requires { (i < 512) × (4 * i + 3 < length words.now) × (count < 512) }
    ensures result_after { holds scratch.new result ≡ gathered words.now i 1 (holds scratch.old count) }
    ensures upper_bound { result ≤ count + 1 }
{
    if let Slot::Full(entry) = slot_at(words, i) {
        put_entry(scratch, count, entry);
        return count + 1;
    }
    count
}

impl<'a> Table<'a> {
    // The live entries, in slot order, into the scratch.
    pub fn gather(&self, scratch: &mut [u64; 2048]) -> usize
        ensures result_after { holds scratch.new result
            ≡ gathered self.now.words.now 0 self.now.slots (holds scratch.old 0) }
        ensures upper_bound { result ≤ self.now.slots }
    {
        let mut count = 0;
        for i in 0..self.slots {
            count = gather_slot(self.words, i, scratch, count);
        }
        count
    }
}

// The first `count` entries of the scratch are placed one after the other.
fn place_all(words: &mut [u64], slots: usize, scratch: &[u64; 2048], count: usize)
    requires { (0 < slots) × (slots ≤ 512) × (4 * slots ≤ length words.old) × (count ≤ 512) }
    ensures { words.new ≡ place_all (scratch_entries scratch.now 0 count) words.old slots }
{
    for i in 0..count {
        let entry = entry_at(scratch, i);
        let at = Table { words, slots }.free_for(id_of(entry));
        put_entry(words, at, entry);
    }
}

// The live entries re-placed in n slots, removed marks gone; the answer is how many they are. The scratch that holds them meanwhile has
// room for 512, and is zero at the start.
fn rebuild(words: &mut [u64], slots: usize, n: usize) -> usize
    requires { (slots ≤ 512) × (4 * slots ≤ length words.old) × (0 < n) × (n ≤ 512) × (4 * n ≤ length words.old) }
    ensures words_after { words.new ≡ rebuilt words.old slots n }
    ensures value { (result ≡ length (live_entries words.old 0 slots)) × (result ≤ slots) }
{
    if slots == 0 {
        empty_slots(words, n);
        return 0;
    }
    let mut scratch = [0u64; 2048];
    let count = Table { words, slots }.gather(&mut scratch);
    empty_slots(words, n);
    place_all(words, n, &scratch, count);
    count
}

// Room for one entry more, in a crowded table.
pub fn make_room(words: &mut [u64], t: CapTable) -> Inserted
    requires { Insertable words.old t }
    ensures result_after { leaves words.new result ≡ enlarged words.old t }
    ensures placeable { Placeable words.new result.table × (result.moved ≤ 512) }
{
    let n = room_for(t.full);
    let moved = rebuild(words, t.slots, n);
    Inserted {
        table: CapTable {
            slots: n,
            full: moved,
            tombstones: 0,
        },
        moved,
    }
}

// The removed marks that are left when an entry is placed in slot i.
fn marks_left(words: &[u64], i: usize, tombstones: usize) -> usize
    requires { (i < 512) × (4 * i + 3 < length words.now) }
    ensures { result ≡ tombstones - one (is_removed words.now i) }
{
    tombstones.saturating_sub(is_kind(words, i, Kind::Removed) as usize)
}

// The entry goes to the first free slot of its walk; a removed mark there is used up.
pub fn place(words: &mut [u64], s: Inserted, entry: CapabilityEntry) -> Inserted
    requires { Placeable words.old s.table }
    ensures { leaves words.new result ≡ placed (leaves words.old s) entry }
{
    let Inserted { table: t, moved } = s;
    let table = Table {
        words,
        slots: t.slots,
    };
    let at = table.free_for(id_of(entry));
    let tombstones = marks_left(words, at, t.tombstones);
    put_entry(words, at, entry);
    Inserted {
        table: CapTable {
            full: t.full + 1,
            tombstones,
            ..t
        },
        moved,
    }
}

// Insert an entry whose id is not present.
#[tactic(auto, using(crate::proofs::CodeInsert::insert_laws))]
pub fn insert_new(words: &mut [u64], t: CapTable, entry: CapabilityEntry) -> Inserted
    requires { Insertable words.old t }
    ensures { leaves words.new result ≡ insert_new words.old t entry }
{
    if crowded(t) {
        let s = make_room(words, t);
        return place(words, s, entry);
    }
    place(words, Inserted { table: t, moved: 0 }, entry)
}
