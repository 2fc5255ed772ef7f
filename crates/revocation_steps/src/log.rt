// The log in the world's memory.
ghost use Rattle.std.specs.Prelude.{◌≡◌, ◌+◌, ◌≤◌, length, take};
ghost use Rattle.base.specs.Distinct.{Differ};
ghost use Rattle.revocation.specs.Log.{log_has, absent_of};
ghost use Rattle.steps.specs.Ready.{Ready};
ghost use Rattle.world.specs.Numbers.{logged_of};
ghost use Rattle.world.specs.Sound.{log_pairs};
ghost use Rattle.revocation_steps.specs.Revocation.{log_of, log_step};

use world::Numbers;
use world::head::LOGGED;

// Whether the log has the pair.
pub fn has_pair(mem: &[u64], d: Numbers, pair: u64) -> bool
    requires { Ready d mem.now × (logged_of mem.now ≤ d.pairs) }
    ensures { result ≡ log_has (logged_of mem.now) (log_of d mem.now) pair }
{
    revocation::log::has_pair(&mem[d.log()], mem[LOGGED] as usize, pair)
}

// Of the first `count` pairs those that the log has not come to the front, in order; answers how many.
pub fn keep_absent(mem: &[u64], d: Numbers, pairs: &mut [u64], count: usize) -> usize
    requires ready { Ready d mem.now × (logged_of mem.now ≤ d.pairs) × (count ≤ length pairs.old) }
    requires differ { Differ (logged_of mem.now) (log_pairs d mem.now) }
    ensures pairs_after { take result pairs.new
        ≡ absent_of (logged_of mem.now) (log_of d mem.now) (take count pairs.old) }
    ensures upper_bound { result ≤ count }
{
    revocation::log::keep_absent(&mem[d.log()], mem[LOGGED] as usize, pairs, count)
}

// These pairs join the log.
pub fn append_pairs(mem: &mut [u64], d: Numbers, pairs: &[u64])
    requires { Ready d mem.old × (logged_of mem.old + length pairs.now ≤ d.pairs) }
    ensures { mem.new ≡ log_step d pairs.now mem.old }
{
    let n = mem[LOGGED] as usize;
    revocation::log::append(&mut mem[d.log()], n, pairs);
    mem[LOGGED] = (n + pairs.len()) as u64;
}
