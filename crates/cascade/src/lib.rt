// A cascade: a registered id and all its descendants that are not revoked yet are revoked and logged, and the descendants queued to the
// listed pids. manager.rs's `revoke`, from the place of its id on.
#![tactic(auto)]

ghost use Rattle.std.specs.Prelude.{◌≡◌, ◌+◌, ◌<◌, ◌≤◌, length, take};
ghost use Rattle.registry.specs.PlaceLists.{AllBelow};
ghost use Rattle.revocation_steps.specs.Revocation.{cascade, carried_out, queues_needed};
ghost use Rattle.steps.specs.Ready.{Ready, QueuesReady};
ghost use Rattle.steps.specs.Replies.{told};
ghost use Rattle.world.specs.Numbers.{registered_of, logged_of};
ghost use Rattle.world.specs.Sound.{SoundAt};
ghost use Rattle.cascade.specs.Cascade.{revoking, carrying_out};

use answers::Refusal;
use revocation_steps::descent::{descend, ids_at, keep_unrevoked, mark};
use revocation_steps::log::{append_pairs, keep_absent};
use revocation_steps::queues::{free_queues, new_queues, notify_all};
use steps::registered::{add, state_at};
use steps::{Done, Refused};
use world::Numbers;
use world::head::{EPOCH, LOGGED, REVOKED};

// The places that a cascade from place r revokes, to the front of `order`. Answers how many they are.
#[tactic(auto, using(steps::proofs::laws::Ready::ready_at))]
fn cascade_places(mem: &[u64], d: Numbers, r: usize, order: &mut [u16]) -> usize
    requires { SoundAt d mem.now × (r < registered_of mem.now) × (d.places ≤ length order.old) }
    ensures order_after { (take result order.new ≡ cascade d mem.now r) × (result ≤ d.places) }
    ensures all_below { AllBelow d.places (take result order.new) }
{
    let found = descend(mem, d, r, order);
    keep_unrevoked(mem, d, order, found)
}

// How many new queues a cascade over `count` places needs: none where it revokes no descendant.
fn queues_needed(mem: &[u64], d: Numbers, listed: &[u64], count: usize) -> usize
    requires { Ready d mem.now }
    ensures { result ≡ queues_needed d mem.now listed.now count }
{
    if 1 < count {
        return new_queues(mem, d, listed);
    }
    0
}

// The places of `order`, whose ids are `ids`, are revoked and counted; the pairs join the log; the epoch counts each; each id but the first
// is queued to every listed pid.
fn revoke_places(
    mem: &mut [u64],
    d: Numbers,
    order: &[u16],
    ids: &[u64],
    pairs: &[u64],
    time: u64,
    listed: &[u64],
)
    requires ready { Ready d mem.old × QueuesReady d mem.old × AllBelow d.places order.now }
    requires pairs_bound { (logged_of mem.old + length pairs.now ≤ d.pairs) × (0 < length ids.now) }
    ensures { mem.new
        ≡ carried_out d order.now ids.now pairs.now time listed.now mem.old }
{
    mark(mem, d, order);
    add(mem, REVOKED, order.len());
    append_pairs(mem, d, pairs);
    add(mem, EPOCH, order.len());
    notify_all(mem, d, listed, &ids[1..], time);
}

// The same where the log and the queues have room for it, else 24 or 25 and nothing changes.
#[tactic(auto, using(steps::proofs::laws::Ready::ready_at, steps::proofs::laws::Ready::queues_ready_at), unfolding(base::specs::Choose::when))]
fn revoke_listed(
    mem: &mut [u64],
    d: Numbers,
    order: &[u16],
    ids: &[u64],
    pairs: &[u64],
    time: u64,
    listed: &[u64],
) -> Result<Done, Refused>
    requires { SoundAt d mem.old × AllBelow d.places order.now × (0 < length ids.now) × (length pairs.now ≤ 4096) }
    ensures { record { reply = told result; memory = mem.new }
        ≡ carrying_out d order.now ids.now pairs.now time listed.now mem.old }
{
    if d.pairs < mem[LOGGED] as usize + pairs.len() {
        Err(Refusal::LogFull)?;
    }
    if free_queues(mem, d) < queues_needed(mem, d, listed, order.len()) {
        Err(Refusal::PidTableFull)?;
    }
    revoke_places(mem, d, order, ids, pairs, time, listed);
    Ok(Done::with(0))
}

// Place r is revoked with all under it. Already revoked: nothing changes.
#[tactic(auto, using(steps::proofs::laws::Ready::ready_at), unfolding(crate::specs::Cascade::revoking, base::specs::Choose::when))]
pub fn revoke_at(
    mem: &mut [u64],
    d: Numbers,
    r: usize,
    time: u64,
    listed: &[u64],
) -> Result<Done, Refused>
    requires { SoundAt d mem.old × (r < registered_of mem.old) }
    ensures { record { reply = told result; memory = mem.new } ≡ revoking d r time listed.now mem.old }
{
    if state_at(mem, d, r) % 2 == 1 {
        return Ok(Done::with(0));
    }
    let mut order = [0u16; 4096];
    let count = cascade_places(mem, d, r, &mut order);
    let mut ids = [0u64; 4096];
    ids_at(mem, d, &order[..count], &mut ids);
    let mut pairs = ids;
    let absent = keep_absent(mem, d, &mut pairs, count);
    revoke_listed(
        mem,
        d,
        &order[..count],
        &ids[..count],
        &pairs[..absent],
        time,
        listed,
    )
}
