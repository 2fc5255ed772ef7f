// The ids of a space's entries.
ghost use Rattle.std.specs.Prelude.{◌≡◌, ◌≤◌, length, take};
ghost use Rattle.space.specs.Ids.{entry_ids};

use super::view::Space;
use super::words::TABLE;
use table::Slot;

impl<'a> Space<'a> {
    // The ids of the entries, in slot order, to the front of `ids`; the answer is how many there are.
    pub fn entry_ids(&self, ids: &mut [u64]) -> usize
        requires { 512 ≤ length ids.old }
        ensures { (take result ids.new ≡ entry_ids self.now.words.now) × (result ≤ 512) × (result ≤ length ids.new) }
    {
        let mut count = 0;
        for i in 0..self.table_capacity() {
            if let Slot::Full(entry) = table::slot_at(&self.words[TABLE..], i) {
                ids[count] = table::id_of(entry);
                count += 1;
            }
        }
        count
    }
}
