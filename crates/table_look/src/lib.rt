// Whether a table is sound: document 01's rules of one table, with a pass over its slots and a search of each live one's id.
#![tactic(auto)]

ghost use Rattle.std.specs.Prelude.{true, ◌≡◌, ◌+◌, ◌*◌, ◌≤◌, ◌<◌, eqb, ltb, length, get_or};
ghost use Rattle.base.specs.Below.{all, one};
ghost use Rattle.base.specs.Choose.{both};
ghost use Rattle.table.specs.Slots.{kind_at};
ghost use Rattle.table.specs.Insert.{slots_for};
ghost use Rattle.table.specs.Sound.{ends_here, coded_at, coded_test, capacity_test, agree_test, room_test, unused_test, most_test, found_test, live_slots, sound_test};

use table::{CapTable, Kind, Table, id_at, kind_at, slots_for};

// 0 slots or a power of two from 8 to the most that there can be.
fn is_capacity(slots: usize, most: usize) -> bool
    requires { most ≤ 256 }
    ensures { result ≡ capacity_test most slots }
{
    slots == 0
        || (8..=slots_for(most)).contains(&slots)
            && base::arith::next_power_of_two(slots as u64) == slots as u64
}

// The counts among themselves. They may be any numbers, so each is held to a bound of its own before the sum is made.
fn counts_fit(t: CapTable, most: usize) -> bool
    requires { (t.slots ≤ 512) × (most ≤ 256) }
    ensures { result ≡ both (room_test t) (both (unused_test t) (most_test most t)) }
{
    t.full <= most
        && t.tombstones <= t.slots
        && 4 * (t.full + t.tombstones) <= 3 * t.slots
        && (t.full != 0 || t.slots == 0)
}

// The search of the id in slot i ends at slot i.
fn is_found(table: &Table<'_>, i: usize) -> bool
    requires { i < table.now.slots }
    ensures { result ≡ ends_here table.now.words.now table.now.slots i }
{
    table.find(id_at(table.words, i)).found == Some(i)
}

// 1 for a slot of the kind with that number, any number, 0 for any other.
pub fn one_of(words: &[u64], i: usize, kind: u64) -> usize
    requires { (i < 512) × (4 * i + 3 < length words.now) }
    ensures { (result ≡ one (eqb (kind_at words.now i) kind)) × (result ≤ 1) }
{
    (kind_at(words, i) == kind) as usize
}

// 1 for a slot of a listed kind, 0 for any other.
fn one_coded(words: &[u64], i: usize) -> usize
    requires { (i < 512) × (4 * i + 3 < length words.now) }
    ensures { (result ≡ one (coded_at words.now i)) × (result ≤ 1) }
{
    (kind_at(words, i) <= Kind::Full as u64) as usize
}

// Whether the kinds are listed ones and agree with the counts. The numbers of the live slots are written one after the other: kinds
// follow no pattern, and a search in this loop, which would branch by them, would be mispredicted every other time.
fn kinds_sound(words: &[u64], t: CapTable, live: &mut [u16; 512]) -> bool
    requires { (t.slots ≤ 512) × (4 * t.slots ≤ length words.now) }
    ensures value { result ≡ both (coded_test words.now t.slots) (agree_test words.now t) }
    ensures live_after { live.new ≡ live_slots words.now t.slots live.old }
{
    let mut n = 0;
    let mut removed = 0;
    let mut coded = 0;
    for i in 0..t.slots {
        live[n] = i as u16;
        n += one_of(words, i, Kind::Full as u64);
        removed += one_of(words, i, Kind::Removed as u64);
        coded += one_coded(words, i);
    }
    coded == t.slots && n == t.full && removed == t.tombstones
}

// The search of the id in each of these slots ends at that slot.
fn all_found(table: &Table<'_>, live: &[u16]) -> bool
    requires { all (length live.now) (λ j. ltb (get_or live.now j 0) table.now.slots) ≡ true }
    ensures { result ≡ all (length live.now) (λ j. ends_here table.now.words.now table.now.slots (get_or live.now j 0)) }
{
    for i in live {
        if !is_found(table, *i as usize) {
            return false;
        }
    }
    true
}

// The slots, against the counts and one by one.
fn slots_sound(words: &[u64], t: CapTable) -> bool
    requires { (t.slots ≤ 512) × (4 * t.slots ≤ length words.now) }
    ensures { result
        ≡ both (coded_test words.now t.slots)
        (both (agree_test words.now t) (found_test words.now t.slots)) }
{
    let mut live = [0u16; 512];
    let table = Table {
        words,
        slots: t.slots,
    };
    kinds_sound(words, t, &mut live) && all_found(&table, &live[..t.full])
}

// The capacity comes first: it keeps everything after it in range.
pub fn is_sound(words: &[u64], t: CapTable, most: usize) -> bool
    requires { (most ≤ 256) × (4 * slots_for most ≤ length words.now) }
    ensures { result ≡ sound_test most words.now t }
{
    is_capacity(t.slots, most) && counts_fit(t, most) && slots_sound(words, t)
}
