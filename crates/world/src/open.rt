//! Opening a world: the tests of the numbers, the quotas and the length, and the words of an empty world.
ghost use Rattle.std.specs.Prelude.{◌≡◌, ◌≤◌, ◌<◌, leb, length, get_or};
ghost use Rattle.answers.specs.Answer.{answer_of};
ghost use Rattle.base.specs.Below.{all};
ghost use Rattle.base.specs.Written.{written};
ghost use Rattle.world.specs.Numbers.{InRange};
ghost use Rattle.world.specs.Open.{open_head, open_space, open_spaces, open_queues, opened, record_test, opening};
ghost use Rattle.world.specs.Regions.{head, space, length_for, on_region};

use crate::Numbers;
use crate::head::{NEXT, in_range};
use crate::regions::{length_for, queue_at};
use answers::Refusal;
use revocation::queues::LENGTH;

// Writes the words at the front of the slice.
#[tactic(auto, unfolding(base::specs::Written::written))]
fn put_words(dst: &mut [u64], words: &[u64])
    requires { length words.now ≤ length dst.old }
    ensures { dst.new ≡ written words.now dst.old }
{
    dst[..words.len()].copy_from_slice(words);
}

// The numbers, next id 1, and zeros.
#[tactic(auto, unfolding(crate::specs::Open::open_head, crate::specs::Regions::start_of, base::specs::Written::written))]
fn open_head(mem: &mut [u64], d: Numbers)
    requires { 16 ≤ length mem.old }
    ensures { mem.new ≡ on_region d head (λ hd. open_head d) mem.old }
{
    let mut words = [0u64; 16];
    words[0] = d.spaces as u64;
    words[1] = d.most as u64;
    words[2] = d.places as u64;
    words[3] = d.pairs as u64;
    words[4] = d.queues as u64;
    words[NEXT] = 1;
    put_words(mem, &words);
}

// A space with its quota and nothing in it.
fn open_space(mem: &mut [u64], d: Numbers, s: usize, quota: u64)
    requires { InRange d × (s < d.spaces) × (length_for d ≤ length mem.old) }
    ensures { mem.new ≡ on_region d (space s) (open_space quota) mem.old }
{
    let words = [quota, 0, 0, 0, 0, 0, 0, 0];
    put_words(&mut mem[d.space(s)], &words);
}

#[tactic(auto, using(crate::proofs::Opening::space_laws))]
fn open_spaces(mem: &mut [u64], d: Numbers, quotas: &[u64])
    requires { InRange d × (length quotas.now ≡ d.spaces) × (length_for d ≤ length mem.old) }
    ensures { mem.new ≡ open_spaces d quotas.now d.spaces mem.old }
{
    for s in 0..d.spaces {
        open_space(mem, d, s, quotas[s]);
    }
}

// Every queue free.
#[tactic(auto, using(crate::proofs::Opening::queue_laws))]
fn open_queues(mem: &mut [u64], d: Numbers)
    requires { InRange d × (length_for d ≤ length mem.old) }
    ensures { mem.new ≡ open_queues d d.queues mem.old }
{
    for q in 0..d.queues {
        mem[queue_at(d, q) + LENGTH] = 0;
    }
}

// Each quota is at most M.
fn quotas_fit(quotas: &[u64], most: u64) -> bool
    ensures { result ≡ all (length quotas.now) (λ s. leb (get_or quotas.now s 0) most) }
{
    for quota in quotas {
        if most < *quota {
            return false;
        }
    }
    true
}

// The numbers and quotas of an opening are good.
#[tactic(auto, unfolding(crate::specs::Open::record_test))]
fn good_record(d: Numbers, quotas: &[u64]) -> bool
    ensures { result ≡ record_test d quotas.now }
{
    in_range(d) && quotas.len() == d.spaces && quotas_fit(quotas, d.most as u64)
}

// The words of an empty world.
fn write_world(mem: &mut [u64], d: Numbers, quotas: &[u64])
    requires { InRange d × (length quotas.now ≡ d.spaces) × (length_for d ≤ length mem.old) }
    ensures { mem.new ≡ opened d quotas.now mem.old }
{
    open_head(mem, d);
    open_spaces(mem, d, quotas);
    open_queues(mem, d);
}

/// Empties the memory for a world of these numbers, with each space's quota.
pub fn open(mem: &mut [u64], d: Numbers, quotas: &[u64]) -> Result<(), Refusal>
    ensures { record { answer = answer_of result; memory = mem.new } ≡ opening d quotas.now mem.old }
{
    if !good_record(d, quotas) {
        return Err(Refusal::BadField);
    }
    if mem.len() < length_for(d) {
        return Err(Refusal::BadWorld);
    }
    write_world(mem, d, quotas);
    Ok(())
}
