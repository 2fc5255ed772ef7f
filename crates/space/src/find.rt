// Finding an entry: by its whole token, counted; by its id alone; by its place in slot order.
ghost use Rattle.std.specs.Prelude.{◌≡◌, Some};
ghost use Rattle.table.specs.Slots.{entry_at};
ghost use Rattle.table.specs.Insert.{live_entries};
ghost use Rattle.table.specs.Copy.{nth_of};
ghost use Rattle.space.specs.Words.{table_of, slot_words, InRange, SlotOf};
ghost use Rattle.space.specs.Lookup.{search_id, SearchOf, entry_of, wholly, exact_search, counted, looked_up, got_entry, with_use};

use super::LookedUp;
use super::counters::lend;
use super::view::Space;
use super::words::{TABLE, put_counters};
use table::{CapabilityEntry, Search};
use token::CapabilityToken;

impl<'a> Space<'a> {
    pub fn search_id(&self, id: u64) -> Search
        ensures { result ≡ search_id self.now.words.now id }
    {
        self.table().find(id)
    }

    fn entry_at(&self, i: usize) -> CapabilityEntry
        requires { SlotOf self.now.words.now i }
        ensures { result ≡ entry_at (slot_words self.now.words.now) i }
    {
        table::entry_at(&self.words[TABLE..], i)
    }

    // What a search answers: the entry of the slot where it ended, and its visits.
    pub fn entry_of(&self, s: Search) -> LookedUp
        requires { SearchOf self.now.words.now s }
        ensures { result ≡ entry_of self.now.words.now s }
    {
        let got = match s.found {
            Some(i) => Some(self.entry_at(i)),
            None => None,
        };
        LookedUp {
            got,
            visits: s.visits,
        }
    }

    // Slot i, if it holds the whole token.
    fn whole(&self, token: u64, i: usize) -> Option<usize>
        requires { SlotOf self.now.words.now i }
        ensures { result ≡ wholly self.now.words.now token (Some i) }
    {
        (self.words[TABLE + 4 * i] == token).then_some(i)
    }

    // The slot that holds exactly the token, and the slots that the search of its id visited.
    #[tactic(auto, using(crate::proofs::CodeFind::find_laws))]
    pub fn exact(&self, token: CapabilityToken) -> Search
        ensures { result ≡ exact_search self.now.words.now token.0 }
    {
        let s = self.search_id(token.id());
        let Some(i) = s.found else {
            return s;
        };
        Search {
            found: self.whole(token.0, i),
            ..s
        }
    }

    // The entry of an id, whatever its generation; not counted.
    #[tactic(auto, using(crate::proofs::CodeFind::find_laws))]
    pub fn get_entry(&self, id: u64) -> LookedUp
        ensures { result ≡ got_entry self.now.words.now id }
    {
        self.entry_of(self.search_id(id))
    }

    // The n-th live entry in slot order, n from 0.
    pub fn nth_entry(&self, n: usize) -> Option<CapabilityEntry>
        ensures { result
            ≡ nth_of (live_entries (slot_words self.now.words.now) 0 (table_of self.now.words.now).slots) n }
    {
        self.table().nth_entry(n)
    }
}

fn count_use(sp: &mut [u64], i: usize)
    requires { SlotOf sp.old i }
    ensures { sp.new ≡ with_use sp.old i }
{
    let at = TABLE + 4 * i + 2;
    sp[at] = sp[at].wrapping_add(1);
}

// Lookup of exactly this token, counted: the counters are lent and stored when they have come back. The entry is answered as it was before
// its use.
pub fn lookup(sp: &mut [u64], token: CapabilityToken) -> LookedUp
    requires { InRange sp.old }
    ensures sp_after { sp.new ≡ counted sp.old token.0 }
    ensures value { result ≡ looked_up sp.old token.0 }
{
    let space = Space { words: sp };
    let counted = lend(&space, token, space.counters());
    let answer = space.entry_of(counted.search);
    if let Some(i) = counted.search.found {
        count_use(sp, i);
    }
    put_counters(sp, counted.counters);
    answer
}
