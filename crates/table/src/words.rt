// The words of a slot, read and written.
ghost use Rattle.std.specs.Prelude.{◌≡◌, ◌+◌, ◌*◌, ◌<◌, length};
ghost use Rattle.table.specs.Slots.{kind_at, is_kind, id_at, entry_at, slot_at, put_entry, put_mark};

use super::{CapabilityEntry, Kind, Slot};
use token::{CapabilityToken, Rights};

// The number of the kind, compared as it stands: made a `Kind` by a match, a table took half as long again to look over.
pub fn kind_at(words: &[u64], i: usize) -> u64
    requires { (i < 512) × (4 * i + 3 < length words.now) }
    ensures { result ≡ kind_at words.now i }
{
    words[4 * i + 3] / 0x1_0000_0000
}

// Whether slot i is of that kind.
pub fn is_kind(words: &[u64], i: usize, kind: Kind) -> bool
    requires { (i < 512) × (4 * i + 3 < length words.now) }
    ensures { result ≡ is_kind kind (kind_at words.now i) }
{
    kind_at(words, i) == kind as u64
}

pub fn id_at(words: &[u64], i: usize) -> u64
    requires { (i < 512) × (4 * i + 3 < length words.now) }
    ensures { result ≡ id_at words.now i }
{
    CapabilityToken(words[4 * i]).id()
}

#[tactic(auto, unfolding(crate::specs::Slots::entry_at))]
pub fn entry_at(words: &[u64], i: usize) -> CapabilityEntry
    requires { (i < 512) × (4 * i + 3 < length words.now) }
    ensures { result ≡ entry_at words.now i }
{
    let at = 4 * i;
    CapabilityEntry {
        capability: CapabilityToken(words[at]),
        object: words[at + 1],
        rights: Rights((words[at + 3] % 0x1_0000_0000) as u32),
        uses: words[at + 2],
    }
}

#[tactic(auto, unfolding(crate::specs::Slots::slot_at))]
pub fn slot_at(words: &[u64], i: usize) -> Slot
    requires { (i < 512) × (4 * i + 3 < length words.now) }
    ensures { result ≡ slot_at words.now i }
{
    if is_kind(words, i, Kind::Full) {
        Slot::Full(entry_at(words, i))
    } else if is_kind(words, i, Kind::Empty) {
        Slot::Empty
    } else {
        Slot::Tombstone
    }
}

#[tactic(auto, unfolding(crate::specs::Slots::put_entry))]
pub fn put_entry(words: &mut [u64], i: usize, entry: CapabilityEntry)
    requires { (i < 512) × (4 * i + 3 < length words.old) }
    ensures { words.new ≡ put_entry words.old i entry }
{
    let at = 4 * i;
    words[at] = entry.capability.0;
    words[at + 1] = entry.object;
    words[at + 2] = entry.uses;
    words[at + 3] = 0x2_0000_0000 + entry.rights.0 as u64;
}

#[tactic(auto, unfolding(crate::specs::Slots::put_mark))]
pub fn put_mark(words: &mut [u64], i: usize)
    requires { (i < 512) × (4 * i + 3 < length words.old) }
    ensures { words.new ≡ put_mark words.old i }
{
    words[4 * i + 3] = 0x1_0000_0000;
}
