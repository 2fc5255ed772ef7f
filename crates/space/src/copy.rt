// Copying a space: the source's entries into a scratch array, then from there into the target.
ghost use Rattle.std.specs.Prelude.{◌≡◌, ◌≤◌, length};
ghost use Rattle.table.specs.Insert.{holds, gathered};
ghost use Rattle.space.specs.Words.{words_for, table_of, slot_words};
ghost use Rattle.space.specs.Copy.{replacement, replaced};

use super::view::Space;
use super::words::{TABLE, put_generation, put_table};

impl<'a> Space<'a> {
    // The live entries, in slot order, into the scratch.
    pub fn gather(&self, scratch: &mut [u64; 2048]) -> usize
        ensures { holds scratch.new result
            ≡ gathered (slot_words self.now.words.now) 0 (table_of self.now.words.now).slots (holds scratch.old 0) }
    {
        self.table().gather(scratch)
    }
}

// The space takes the scratch's first `count` entries for its own, whatever it held, and the generation; the answer is the moves.
pub fn replace(sp: &mut [u64], scratch: &[u64; 2048], count: usize, generation: u8) -> usize
    requires { (count ≤ 256) × (words_for count ≤ length sp.old) }
    ensures sp_after { sp.new ≡ replaced sp.old scratch.now count generation }
    ensures value { result ≡ (replacement sp.old scratch.now count).moved }
{
    let s = table::copy_from(&mut sp[TABLE..], scratch, count);
    put_table(sp, s.table);
    put_generation(sp, generation);
    s.moved
}
