//! The words of a list in chained buckets, so that a word is compared only with those of its own bucket: whether they all differ, in one
//! pass, and where a word stands.
ghost use Rattle.std.specs.Prelude.{◌≡◌, true, ◌^◌, ◌<◌, ◌≤◌, length, is_some, IfSome};
ghost use Rattle.base.specs.Distinct.{all_different};
ghost use Rattle.base.specs.Chain.{bucket_of, Chained};
ghost use Rattle.base.specs.Place.{last_of, place_of};

use crate::arith::wrapping_mul;

// 2^64 over the golden ratio.
const GOLDEN: u64 = 0x9E37_79B9_7F4A_7C15;

/// Words and where each of them stands: the heads of the buckets and each place's link to the one before it, in lent memory.
#[derive(Clone, Copy)]
pub struct Index<'a> {
    pub words: &'a [u64],
    pub heads: &'a [u16],
    pub prevs: &'a [u16],
    ghost chained: { Chained words.now heads.now prevs.now (length words.now) },
}

// The bucket of a word, of n buckets: the upper half of a product that spreads ids that follow one another, and the
// generations of one id, over all of 2^32, brought down to n.
fn bucket(n: usize, word: u64) -> usize
    requires { (0 < n) × (n ≤ 2 ^ 32) }
    ensures { (result ≡ bucket_of n word) × (result < n) }
{
    (wrapping_mul(word, GOLDEN) / 0x1_0000_0000 * n as u64 / 0x1_0000_0000) as usize
}

// One more than the last place before j that holds the word, whose bucket is b, or 0 where none does.
fn last_of(xs: &[u64], heads: &[u16], prevs: &[u16], j: usize, word: u64, b: usize) -> usize
    requires chained { Chained xs.now heads.now prevs.now j }
    requires j_in_bounds { j ≤ length xs.now }
    requires b_value { (b ≡ bucket_of (length heads.now) word) × (b < length heads.now) }
    ensures { result ≡ last_of xs.now word j }
{
    // No `for`: the walk goes along links.
    let mut at = heads[b] as usize;
    while 0 < at {
        let k = at - 1;
        if xs[k] == word {
            return at;
        }
        at = prevs[k] as usize;
    }
    0
}

impl<'a> Index<'a> {
    /// The index of words of which no two are equal, made in memory that indexes nothing yet.
    pub fn of(words: &'a [u64], heads: &'a mut [u16], prevs: &'a mut [u16]) -> Option<Index<'a>>
        requires chained { Chained words.now heads.old prevs.old 0 }
        requires words_len_bound { length words.now < 2 ^ 16 }
        ensures value { is_some result ≡ all_different words.now }
        ensures indexed { IfSome result (λ index. index.words.now ≡ words.now) }
    {
        for j in 0..words.len() {
            let word = words[j];
            let b = bucket(heads.len(), word);
            if 0 < last_of(words, heads, prevs, j, word, b) {
                return None;
            }
            prevs[j] = heads[b];
            heads[b] = (j + 1) as u16;
        }
        Some(Index {
            words,
            heads,
            prevs,
        })
    }

    /// Where the word stands.
    pub fn place_of(&self, word: u64) -> Option<usize>
        ensures { result ≡ place_of self.now.words.now word }
    {
        let b = bucket(self.heads.len(), word);
        let at = last_of(
            self.words,
            self.heads,
            self.prevs,
            self.words.len(),
            word,
            b,
        );
        at.checked_sub(1)
    }
}

// Whether no two words of xs are equal, by an index of N places in H buckets.
fn distinct_in<const H: usize, const N: usize>(xs: &[u64]) -> bool
    requires { (0 < H) × (H ≤ 2 ^ 32) × (length xs.now ≤ N) × (N < 2 ^ 16) }
    ensures { result ≡ all_different xs.now }
{
    let mut heads = [0u16; H];
    let mut prevs = [0u16; N];
    Index::of(xs, &mut heads, &mut prevs).is_some()
}

/// Whether no two words of xs are equal. There are at least four buckets to a word, so that most words are the first of theirs. A short
/// list has a small index, since to clear the large one takes longer than to go along the list.
pub fn distinct(xs: &[u64]) -> bool
    requires { length xs.now ≤ 8192 }
    ensures { result ≡ all_different xs.now }
{
    if xs.len() <= 1 {
        true
    } else if xs.len() <= 512 {
        distinct_in::<2048, 512>(xs)
    } else {
        distinct_in::<65536, 8192>(xs)
    }
}
