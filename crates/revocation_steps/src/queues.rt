//! The notification queues in the world's memory.
ghost use Rattle.std.specs.Prelude.{◌≡◌, not, ◌+◌, ◌*◌, ◌<◌, ◌≤◌, eqb, ltb, length, get_or, drop};
ghost use Rattle.base.specs.Choose.{both};
ghost use Rattle.base.specs.Written.{written};
ghost use Rattle.revocation.specs.Queue.{notices};
ghost use Rattle.steps.specs.Ready.{Fits, QueuesReady};
ghost use Rattle.world.specs.Regions.{StartsAt, queue, view};
ghost use Rattle.world.specs.Sound.{lengths, pids};
ghost use Rattle.revocation_steps.specs.Revocation.{queue_for, free_queue, free_queues, is_in, new_queues, notify_step, notify_pids, notify_all, free_step};

use revocation::RevocationReason;
use revocation::queues::{LENGTH, PID, QUEUE};
use world::Numbers;
use world::regions::queue_at;

// Whether place q, counted from where the first queue starts, is the queue of the pid. Where that is, each loop below computes once: a
// cascade makes these tests for every id and every pid.
fn is_queue_of(mem: &[u64], d: Numbers, first: usize, q: usize, pid: u64) -> bool
    requires { Fits d mem.now × StartsAt d (queue 0) first × (q < d.queues) }
    ensures { result ≡ both (ltb 0 (lengths d mem.now q)) (eqb (pids d mem.now q) pid) }
{
    let at = first + q * QUEUE;
    0 < mem[at + LENGTH] && mem[at + PID] == pid
}

// Whether it is free.
fn is_free(mem: &[u64], d: Numbers, first: usize, q: usize) -> bool
    requires { Fits d mem.now × StartsAt d (queue 0) first × (q < d.queues) }
    ensures { result ≡ eqb (lengths d mem.now q) 0 }
{
    mem[first + q * QUEUE + LENGTH] == 0
}

// The place of the queue of a pid, or how many places there are.
pub fn queue_for(mem: &[u64], d: Numbers, pid: u64) -> usize
    requires { Fits d mem.now }
    ensures { (result ≡ queue_for d mem.now pid) × (result ≤ d.queues) }
{
    let first = queue_at(d, 0);
    for q in 0..d.queues {
        if is_queue_of(mem, d, first, q, pid) {
            return q;
        }
    }
    d.queues
}

// The first free place, or how many places there are.
pub fn free_queue(mem: &[u64], d: Numbers) -> usize
    requires { Fits d mem.now }
    ensures { (result ≡ free_queue d mem.now) × (result ≤ d.queues) }
{
    let first = queue_at(d, 0);
    for q in 0..d.queues {
        if is_free(mem, d, first, q) {
            return q;
        }
    }
    d.queues
}

// How many places are free.
pub fn free_queues(mem: &[u64], d: Numbers) -> usize
    requires { Fits d mem.now }
    ensures { (result ≡ free_queues d mem.now) × (result ≤ d.queues) }
{
    let first = queue_at(d, 0);
    let mut free = 0;
    for q in 0..d.queues {
        free += is_free(mem, d, first, q) as usize;
    }
    free
}

// How many notices the queue at place q has, 0 where the place is free.
pub fn queue_length(mem: &[u64], d: Numbers, q: usize) -> u64
    requires { Fits d mem.now × (q < d.queues) }
    ensures { result ≡ lengths d mem.now q }
{
    mem[queue_at(d, q) + LENGTH]
}

// The notices of the queue at place q, oldest first, to the front of the area.
pub fn copy_notices(mem: &[u64], d: Numbers, q: usize, area: &mut [u64])
    requires queues_ready { QueuesReady d mem.now × (q < d.queues) × (0 < lengths d mem.now q) }
    requires q_in_bounds { 3 * lengths d mem.now q ≤ length area.old }
    ensures { area.new ≡ written (notices (view d (queue q) mem.now)) area.old }
{
    revocation::queues::copy_notices(&mem[d.queue(q)], area);
}

// A notice for a pid: behind the others of its queue, or as the first of a new queue.
pub fn notify(mem: &mut [u64], d: Numbers, pid: u64, id: u64, time: u64, reason: u64)
    requires { QueuesReady d mem.old }
    ensures { mem.new ≡ notify_step d pid id time reason mem.old }
{
    let q = queue_for(mem, d, pid);
    if q < d.queues {
        revocation::queues::push(&mut mem[d.queue(q)], id, time, reason);
        return;
    }
    let free = free_queue(mem, d);
    if free < d.queues {
        revocation::queues::begin(&mut mem[d.queue(free)], pid, id, time, reason);
    }
}

// Whether the pid is among those listed from place j on.
fn is_in(listed: &[u64], j: usize, pid: u64) -> bool
    requires { j ≤ length listed.now }
    ensures { result ≡ is_in pid (drop j listed.now) }
{
    listed[j..].contains(&pid)
}

// Whether the j-th pid has no queue and is not listed again behind it.
fn is_new(mem: &[u64], d: Numbers, listed: &[u64], j: usize) -> bool
    requires { Fits d mem.now × (j < length listed.now) }
    ensures { result
        ≡ both (not (ltb (queue_for d mem.now (get_or listed.now j 0)) d.queues))
        (not (is_in (get_or listed.now j 0) (drop (j + 1) listed.now))) }
{
    let pid = listed[j];
    d.queues <= queue_for(mem, d, pid) && !is_in(listed, j + 1, pid)
}

// How many of the listed pids, a repeat once, have no queue.
pub fn new_queues(mem: &[u64], d: Numbers, listed: &[u64]) -> usize
    requires { Fits d mem.now }
    ensures { (result ≡ new_queues d mem.now listed.now) × (result ≤ length listed.now) }
{
    let mut count = 0;
    for j in 0..listed.len() {
        count += is_new(mem, d, listed, j) as usize;
    }
    count
}

// The id is queued to every listed pid as parent_revoked.
fn notify_pids(mem: &mut [u64], d: Numbers, listed: &[u64], id: u64, time: u64)
    requires { QueuesReady d mem.old }
    ensures mem_after { mem.new ≡ notify_pids d listed.now id time mem.old }
    ensures queues_ready { QueuesReady d mem.new }
{
    let reason = u64::from(u8::from(RevocationReason::ParentRevoked));
    for pid in listed {
        notify(mem, d, *pid, id, time, reason);
    }
}

// So each of these ids, in turn.
pub fn notify_all(mem: &mut [u64], d: Numbers, listed: &[u64], ids: &[u64], time: u64)
    requires { QueuesReady d mem.old }
    ensures { mem.new ≡ notify_all d listed.now ids.now time mem.old }
{
    for id in ids {
        notify_pids(mem, d, listed, *id, time);
    }
}

// The queue at place q is freed.
pub fn free_at(mem: &mut [u64], d: Numbers, q: usize)
    requires { Fits d mem.old × (q < d.queues) }
    ensures { mem.new ≡ free_step d q mem.old }
{
    revocation::queues::free(&mut mem[d.queue(q)]);
}
