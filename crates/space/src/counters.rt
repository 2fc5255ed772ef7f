// The hits and misses of a space as one record that is changed where it stands, lent by `&mut` to the lookup that counts. Both are words
// of the space, and no reference to a record can point into a slice of words. So the record stands in a local while it is lent.
ghost use Rattle.std.specs.Prelude.{◌≡◌};
ghost use Rattle.space.specs.Counters.{one_counted, search_and, counted_search};

use super::view::Space;
use table::Search;
use token::CapabilityToken;

#[derive(Clone, Copy, PartialEq, Eq, Debug)]
pub struct Counters {
    pub hits: u64,
    pub misses: u64,
}

// A search, and the counters after it.
#[derive(Clone, Copy, PartialEq, Eq, Debug)]
pub struct CountedSearch {
    pub search: Search,
    pub counters: Counters,
}

// One hit or one miss more, where the record stands.
fn count(c: &mut Counters, hit: bool)
    ensures { c.new ≡ one_counted c.old hit }
{
    if hit {
        c.hits = c.hits.wrapping_add(1);
    } else {
        c.misses = c.misses.wrapping_add(1);
    }
}

// The lookup that counts: where exactly the token is found, a hit or a miss.
fn lookup_counted(space: &Space<'_>, token: CapabilityToken, c: &mut Counters) -> Search
    ensures { search_and result c.new ≡ counted_search space.now.words.now token.0 c.old }
{
    let s = space.exact(token);
    count(c, s.found.is_some());
    s
}

// The record is lent to the lookup and comes back.
pub fn lend(space: &Space<'_>, token: CapabilityToken, c: Counters) -> CountedSearch
    ensures { result ≡ counted_search space.now.words.now token.0 c }
{
    let mut counters = c;
    let search = lookup_counted(space, token, &mut counters);
    CountedSearch { search, counters }
}
