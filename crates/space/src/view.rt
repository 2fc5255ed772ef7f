// A space to be read: its words, in range, and what stands in its first eight.
ghost use Rattle.std.specs.Prelude.{◌≡◌};
ghost use Rattle.space.specs.Words.{quota_of, generation_of, hits_of, misses_of, table_of, slot_words, InRange};
ghost use Rattle.space.specs.Counters.{counters_of};

use super::counters::Counters;
use super::words::{GENERATION, HITS, LIVE, MISSES, QUOTA, SLOTS, TABLE};
use table::Table;

#[derive(Clone, Copy)]
pub struct Space<'a> {
    pub words: &'a [u64],
    ghost in_range: { InRange words.now },
}

impl<'a> Space<'a> {
    pub fn quota(&self) -> usize
        ensures { result ≡ quota_of self.now.words.now }
    {
        self.words[QUOTA] as usize
    }

    pub fn generation(&self) -> u8
        ensures { result ≡ generation_of self.now.words.now }
    {
        self.words[GENERATION] as u8
    }

    pub fn hits(&self) -> u64
        ensures { result ≡ hits_of self.now.words.now }
    {
        self.words[HITS]
    }

    pub fn misses(&self) -> u64
        ensures { result ≡ misses_of self.now.words.now }
    {
        self.words[MISSES]
    }

    // The two counters as one record.
    pub fn counters(&self) -> Counters
        ensures { result ≡ counters_of self.now.words.now }
    {
        Counters {
            hits: self.words[HITS],
            misses: self.words[MISSES],
        }
    }

    // Slots allocated by the table.
    pub fn table_capacity(&self) -> usize
        ensures { result ≡ (table_of self.now.words.now).slots }
    {
        self.words[SLOTS] as usize
    }

    // The space's table.
    pub fn table(&self) -> Table<'a>
        ensures { (result.words.now ≡ slot_words self.now.words.now) × (result.slots ≡ (table_of self.now.words.now).slots) }
    {
        Table {
            words: &self.words[TABLE..],
            slots: self.table_capacity(),
        }
    }

    // The current number of capabilities; the source's `total_caps` is the same word.
    pub fn used(&self) -> usize
        ensures { result ≡ (table_of self.now.words.now).full }
    {
        self.words[LIVE] as usize
    }
}
