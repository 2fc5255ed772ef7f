// Removing: the slot keeps a mark, so that walks go on past it.
ghost use Rattle.std.specs.Prelude.{◌≡◌, ◌+◌, ◌*◌, ◌≤◌, ◌<◌, length};
ghost use Rattle.table.specs.Insert.{removed_at, held_at};

use super::words::{put_mark, slot_at};
use super::{CapTable, Removed, Slot};

// The entry of slot i leaves, if there is one; a table that held no other gives its slots back.
pub fn remove_at(words: &mut [u64], t: CapTable, i: usize) -> Removed
    requires { (i < 512) × (4 * i + 3 < length words.old) × (t.tombstones ≤ 512) }
    ensures moved_value { record { words = words.new; counts = result.table; moved = 0 } ≡ removed_at words.old t i }
    ensures left_value { result.left ≡ held_at words.old i }
{
    let Slot::Full(entry) = slot_at(words, i) else {
        return Removed {
            table: t,
            left: None,
        };
    };
    put_mark(words, i);
    let table = if 1 < t.full {
        CapTable {
            full: t.full - 1,
            tombstones: t.tombstones + 1,
            ..t
        }
    } else {
        CapTable::EMPTY
    };
    Removed {
        table,
        left: Some(entry),
    }
}
