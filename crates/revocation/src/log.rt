// The revocation log: which pairs it has, and pairs joining it. revocation.rs's `RevocationList`.
ghost use Rattle.std.specs.Prelude.{◌≡◌, ◌+◌, ◌^◌, ◌<◌, ◌≤◌, length, take, drop};
ghost use Rattle.base.specs.Distinct.{Differ};
ghost use Rattle.revocation.specs.Words.{pair_at};
ghost use Rattle.revocation.specs.Log.{log_has, absent_of, appended};

use base::distinct::Index;

// Whether the log, of n pairs, has the pair.
pub fn has_pair(lg: &[u64], n: usize, pair: u64) -> bool
    requires { n ≤ length lg.now }
    ensures { result ≡ log_has n lg.now pair }
{
    lg[..n].contains(&pair)
}

// Whether the pairs of a whole log have this one, by their index.
fn has_indexed(log: &Index<'_>, pair: u64) -> bool
    ensures { result ≡ log_has (length log.now.words.now) log.now.words.now pair }
{
    log.place_of(pair).is_some()
}

// Of the first `count` pairs those that the log has not come to the front, in order, by the index of the log; answers how many.
fn keep_by_index(log: &Index<'_>, pairs: &mut [u64], count: usize) -> usize
    requires count_in_bounds { count ≤ length pairs.old }
    ensures pairs_after { take result pairs.new
        ≡ absent_of (length log.now.words.now) log.now.words.now (take count pairs.old) }
    ensures upper_bound { (result ≤ count) × (drop result pairs.new ≡ drop result pairs.old) }
{
    let mut kept = 0;
    for j in 0..count {
        let pair = pairs[j];
        if has_indexed(log, pair) {
            continue;
        }
        pairs[kept] = pair;
        kept += 1;
    }
    kept
}

// The same by an index of N places in H buckets, made for it, since the pairs of a log differ.
fn keep_in<const H: usize, const N: usize>(lg: &[u64], pairs: &mut [u64], count: usize) -> usize
    requires sizes { (0 < H) × (H ≤ 2 ^ 32) × (length lg.now ≤ N) × (N < 2 ^ 16) }
    requires count_in_bounds { count ≤ length pairs.old }
    requires differ { Differ (length lg.now) (pair_at lg.now) }
    ensures pairs_after { take result pairs.new
        ≡ absent_of (length lg.now) lg.now (take count pairs.old) }
    ensures upper_bound { (result ≤ count) × (drop result pairs.new ≡ drop result pairs.old) }
{
    let mut heads = [0u16; H];
    let mut prevs = [0u16; N];
    let log = Index::of(lg, &mut heads, &mut prevs).unwrap();
    keep_by_index(&log, pairs, count)
}

// Those of the first `count` pairs that the log, of n pairs, has not come to the front, in order; answers how many. For one pair the log is
// scanned; for more it is indexed once, a short one in a small index.
pub fn keep_absent(lg: &[u64], n: usize, pairs: &mut [u64], count: usize) -> usize
    requires n_in_bounds { (n ≤ length lg.now) × (n ≤ 8192) × (count ≤ length pairs.old) }
    requires differ { Differ n (pair_at lg.now) }
    ensures pairs_after { take result pairs.new ≡ absent_of n lg.now (take count pairs.old) }
    ensures upper_bound { (result ≤ count) × (drop result pairs.new ≡ drop result pairs.old) }
{
    if count == 1 {
        if has_pair(lg, n, pairs[0]) {
            return 0;
        }
        return 1;
    }
    if n <= 512 {
        return keep_in::<2048, 512>(&lg[..n], pairs, count);
    }
    keep_in::<65536, 8192>(&lg[..n], pairs, count)
}

// These pairs join the log behind its n.
#[tactic(auto, unfolding(crate::specs::Log::appended))]
pub fn append(lg: &mut [u64], n: usize, pairs: &[u64])
    requires { n + length pairs.now ≤ length lg.old }
    ensures { lg.new ≡ appended n pairs.now lg.old }
{
    lg[n..n + pairs.len()].copy_from_slice(pairs);
}
