// The table's functions for a program in Rust that compares them with the original's and measures both; no host calls them.
// Beside its words a table is four numbers: slots, full, tombstones, and the entries that the last call moved. An entry comes back as
// four words: token, object, uses, rights. Ranges are the caller's to keep, as in the crate `table`.
#![tactic(auto)]

ghost use Rattle.std.specs.Prelude.{◌≡◌, ◌+◌, ◌*◌, ◌<◌, ◌≤◌, length, get_or};
ghost use Rattle.table.specs.Walk.{search, got};
ghost use Rattle.table.specs.Insert.{slots_for, held_at, Insertable, insert_new, removed_at, live_entries, gathered, holds, scratch_entries, none};
ghost use Rattle.table.specs.Copy.{nth_of, insert_all};
ghost use Rattle.table.specs.Sound.{sound_test};
ghost use Rattle.table_probe.specs.Numbers.{counts_of, keeps, left, leaves, entry_of, entry_words, ended, answers, got_words, nth_words};

use table::{CapTable, CapabilityEntry, Table, copy_from, insert_new, remove_at};
use table_look::is_sound;
use token::{CapabilityToken, Rights};

// A search's end: the slot, or all ones where the id is absent, and the visits.
#[repr(C)]
#[derive(Clone, Copy)]
pub struct Ended {
    pub at: usize,
    pub visits: usize,
}

fn counts(numbers: &[usize; 4]) -> CapTable
    ensures { result ≡ counts_of numbers.now }
{
    CapTable {
        slots: numbers[0],
        full: numbers[1],
        tombstones: numbers[2],
    }
}

#[tactic(auto, unfolding(crate::specs::Numbers::keeps))]
fn keep(table: CapTable, moved: usize, numbers: &mut [usize; 4])
    ensures { numbers.new ≡ keeps numbers.old table moved }
{
    numbers[0] = table.slots;
    numbers[1] = table.full;
    numbers[2] = table.tombstones;
    numbers[3] = moved;
}

#[tactic(auto, unfolding(crate::specs::Numbers::entry_words))]
fn put(entry: CapabilityEntry, out: &mut [u64; 4])
    ensures { out.new ≡ entry_words out.old entry }
{
    out[0] = entry.capability.0;
    out[1] = entry.object;
    out[2] = entry.uses;
    out[3] = entry.rights.0 as u64;
}

// The entry, if there is one, over the four words.
fn put_got(found: Option<CapabilityEntry>, out: &mut [u64; 4]) -> bool
    ensures { answers result out.new ≡ got_words out.old found }
{
    match found {
        Some(entry) => {
            put(entry, out);
            true
        }
        None => false,
    }
}

#[unsafe(no_mangle)]
pub extern "C" fn table_probe_find(words: &[u64], slots: usize, id: u64) -> Ended
    requires { (slots ≤ 512) × (4 * slots ≤ length words.now) }
    ensures { result ≡ ended (search words.now slots id) }
{
    let s = Table { words, slots }.find(id);
    Ended {
        at: s.found.unwrap_or(usize::MAX),
        visits: s.visits,
    }
}

#[unsafe(no_mangle)]
pub extern "C" fn table_probe_get(words: &[u64], slots: usize, id: u64, out: &mut [u64; 4]) -> bool
    requires { (slots ≤ 512) × (4 * slots ≤ length words.now) }
    ensures { answers result out.new ≡ got_words out.old (got words.now slots id) }
{
    put_got(Table { words, slots }.get(id), out)
}

#[unsafe(no_mangle)]
pub extern "C" fn table_probe_nth_entry(
    words: &[u64],
    slots: usize,
    n: usize,
    out: &mut [u64; 4],
) -> bool
    requires { (slots ≤ 512) × (4 * slots ≤ length words.now) }
    ensures { answers result out.new ≡ nth_words out.old (nth_of (live_entries words.now 0 slots) n) }
{
    put_got(Table { words, slots }.nth_entry(n), out)
}

#[unsafe(no_mangle)]
pub extern "C" fn table_probe_insert_new(
    words: &mut [u64],
    numbers: &mut [usize; 4],
    token: u64,
    object: u64,
    rights: u32,
    uses: u64,
)
    requires { Insertable words.old (counts_of numbers.old) }
    ensures { left words.new numbers.new
        ≡ leaves numbers.old
        (insert_new words.old (counts_of numbers.old) (entry_of token object rights uses)) }
{
    let entry = CapabilityEntry {
        capability: CapabilityToken(token),
        object,
        rights: Rights(rights),
        uses,
    };
    let s = insert_new(words, counts(numbers), entry);
    keep(s.table, s.moved, numbers);
}

#[unsafe(no_mangle)]
pub extern "C" fn table_probe_remove_at(
    words: &mut [u64],
    numbers: &mut [usize; 4],
    i: usize,
    out: &mut [u64; 4],
) -> bool
    requires { (i < 512) × (4 * i + 3 < length words.old) × (get_or numbers.old 2 0 ≤ 512) }
    ensures numbers_after { left words.new numbers.new
        ≡ leaves numbers.old (removed_at words.old (counts_of numbers.old) i) }
    ensures out_after { answers result out.new ≡ got_words out.old (held_at words.old i) }
{
    let s = remove_at(words, counts(numbers), i);
    keep(s.table, 0, numbers);
    put_got(s.left, out)
}

// The live entries, in slot order, into the scratch: the first half of a copy.
#[unsafe(no_mangle)]
pub extern "C" fn table_probe_gather(
    words: &[u64],
    slots: usize,
    scratch: &mut [u64; 2048],
) -> usize
    requires { (slots ≤ 512) × (4 * slots ≤ length words.now) }
    ensures { holds scratch.new result ≡ gathered words.now 0 slots (holds scratch.old 0) }
{
    Table { words, slots }.gather(scratch)
}

// A table of the scratch's first `count` entries, over whatever the words held: its second half.
#[unsafe(no_mangle)]
pub extern "C" fn table_probe_copy_from(
    words: &mut [u64],
    numbers: &mut [usize; 4],
    scratch: &[u64; 2048],
    count: usize,
)
    requires { (count ≤ 256) × (4 * slots_for count ≤ length words.old) }
    ensures { left words.new numbers.new
        ≡ leaves numbers.old
        (insert_all (scratch_entries scratch.now 0 count) (record { words = words.old; counts = none; moved = 0 })) }
{
    let s = copy_from(words, scratch, count);
    keep(s.table, s.moved, numbers);
}

#[unsafe(no_mangle)]
pub extern "C" fn table_probe_is_sound(words: &[u64], numbers: &[usize; 4], most: usize) -> bool
    requires { (most ≤ 256) × (4 * slots_for most ≤ length words.now) }
    ensures { result ≡ sound_test most words.now (counts_of numbers.now) }
{
    is_sound(words, counts(numbers), most)
}
