// The look over the log and the queues: document 01's rules of them, each tested in one pass over what they hold.
ghost use Rattle.std.specs.Prelude.{◌≡◌, ◌+◌, ◌*◌, ◌^◌, ◌<◌, ◌≤◌, leb, ltb, length, get_or};
ghost use Rattle.base.specs.Below.{all};
ghost use Rattle.revocation.specs.Words.{pair_at, first_of, reason_at, queue_at, pid_at, length_at};
ghost use Rattle.revocation.specs.Sound.{pairs_test, log_test, queue_test, apart_test, pids_differ_test, queues_test};

use crate::queues::{FIRST, LENGTH, PID, QUEUE, RING};
use base::distinct::distinct;

// Whether a word is a pair: an id of 48 bits and a generation of 8.
fn is_pair(word: u64) -> bool
    ensures { result ≡ ltb word (2 ^ 56) }
{
    word < 0x100_0000_0000_0000
}

// Whether each of the first n words of the log is a pair.
fn pairs_coded(lg: &[u64], n: usize) -> bool
    requires { n ≤ length lg.now }
    ensures { result ≡ pairs_test n (pair_at lg.now) }
{
    lg[..n].iter().all(|word| is_pair(*word))
}

// The rules of the log, of n pairs.
#[tactic(auto, unfolding(crate::specs::Sound::log_test))]
pub fn log_sound(lg: &[u64], n: usize) -> bool
    requires { (n ≤ length lg.now) × (n ≤ 8192) }
    ensures { result ≡ log_test n lg.now }
{
    pairs_coded(lg, n) && distinct(&lg[..n])
}

// Whether the i-th notice, oldest first, has a listed reason.
fn reason_listed(qu: &[u64], i: usize) -> bool
    requires { (771 ≤ length qu.now) × (first_of qu.now < 256) × (i < 256) }
    ensures { result ≡ leb (reason_at qu.now i) 3 }
{
    let ring = (qu[FIRST] as usize + i) % 256;
    qu[RING + 3 * ring + 2] <= 3
}

// Whether the n notices of a queue have listed reasons.
fn reasons_listed(qu: &[u64], n: usize) -> bool
    requires { (771 ≤ length qu.now) × (first_of qu.now < 256) × (n ≤ 256) }
    ensures { result ≡ all n (λ i. leb (reason_at qu.now i) 3) }
{
    for i in 0..n {
        if !reason_listed(qu, i) {
            return false;
        }
    }
    true
}

// The rules of one place of a queue.
#[tactic(auto, unfolding(crate::specs::Sound::queue_test))]
pub fn queue_sound(qu: &[u64]) -> bool
    requires { 771 ≤ length qu.now }
    ensures { result ≡ queue_test qu.now }
{
    let n = qu[LENGTH];
    n == 0 || (qu[FIRST] < 256 && n <= 256 && reasons_listed(qu, n as usize))
}

// The rules of each of p places, by itself.
fn each_sound(qs: &[u64], p: usize) -> bool
    requires { p * 771 ≤ length qs.now }
    ensures { result ≡ all p (λ q. queue_test (queue_at qs.now q)) }
{
    for q in 0..p {
        let at = q * QUEUE;
        if !queue_sound(&qs[at..at + QUEUE]) {
            return false;
        }
    }
    true
}

// The i-th word of the queue at place q.
fn word_at(qs: &[u64], q: usize, i: usize) -> u64
    requires { (q * 771 + 771 ≤ length qs.now) × (i < 771) }
    ensures { result ≡ get_or (queue_at qs.now q) i 0 }
{
    qs[q * QUEUE + i]
}

// Whether i is not a queue with the pid of queue j.
fn apart(qs: &[u64], i: usize, j: usize) -> bool
    requires { (i < j) × (j * 771 + 771 ≤ length qs.now) × (0 < length_at qs.now j) }
    ensures { result ≡ apart_test (pid_at qs.now) (length_at qs.now) i j }
{
    word_at(qs, i, LENGTH) == 0 || word_at(qs, i, PID) != word_at(qs, j, PID)
}

// Whether j is no queue, or none before it has its pid.
fn pid_new(qs: &[u64], j: usize) -> bool
    requires { j * 771 + 771 ≤ length qs.now }
    ensures { result ≡ all j (λ i. apart_test (pid_at qs.now) (length_at qs.now) i j) }
{
    if word_at(qs, j, LENGTH) == 0 {
        return true;
    }
    for i in 0..j {
        if !apart(qs, i, j) {
            return false;
        }
    }
    true
}

// Whether the queues of p places have different pids: at most 32, so each is held against each.
fn pids_differ(qs: &[u64], p: usize) -> bool
    requires { p * 771 ≤ length qs.now }
    ensures { result ≡ pids_differ_test p (pid_at qs.now) (length_at qs.now) }
{
    for j in 0..p {
        if !pid_new(qs, j) {
            return false;
        }
    }
    true
}

// The rules of the queues, of p places one after another.
#[tactic(auto, unfolding(crate::specs::Sound::queues_test))]
pub fn queues_sound(qs: &[u64], p: usize) -> bool
    requires { p * 771 ≤ length qs.now }
    ensures { result ≡ queues_test p qs.now }
{
    each_sound(qs, p) && pids_differ(qs, p)
}
