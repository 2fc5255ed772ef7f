// The notices of one process: seen, taken, counted, dropped. A process without a queue has none.
ghost use Rattle.std.specs.Prelude.{◌≡◌, ◌*◌, ◌≤◌, length};
ghost use Rattle.base.specs.Written.{written};
ghost use Rattle.steps.specs.Ready.{Fits};
ghost use Rattle.steps.specs.Replies.{told};
ghost use Rattle.world.specs.Sound.{SoundAt};
ghost use Rattle.notification_calls.specs.Calls.{count_for, notices_for, peek_out, without, drain_out, notification_count_out, cleanup_out};

use answers::Refusal;
use revocation_steps::queues::{copy_notices, free_at, queue_for, queue_length};
use steps::enter::enter_world;
use steps::{Done, Refused};
use world::Numbers;

// How many notices the queue at place q has, 0 past the last place.
fn count_for(mem: &[u64], d: Numbers, q: usize) -> u64
    requires { Fits d mem.now }
    ensures { result ≡ count_for d mem.now q }
{
    if q < d.queues {
        return queue_length(mem, d, q);
    }
    0
}

// The notices of the queue at place q, which has `count`, go to the front of the area.
#[tactic(auto, using(crate::proofs::Noticing::there, crate::proofs::Noticing::none_for, crate::proofs::Noticing::count_there, steps::proofs::laws::Ready::queues_ready_at), unfolding(base::specs::Written::written))]
fn copy_for(mem: &[u64], d: Numbers, q: usize, count: u64, area: &mut [u64])
    requires { SoundAt d mem.now × (count ≡ count_for d mem.now q) × (3 * count ≤ length area.old) }
    ensures { area.new ≡ written (notices_for d mem.now q) area.old }
{
    if 0 < count {
        copy_notices(mem, d, q, area);
    }
}

/// The notices of a pid, oldest first, three words each, to the front of the area; the value is how many. 21 for an area that is too short
/// for them.
#[tactic(auto, using(crate::proofs::Noticing::few_for), unfolding(crate::specs::Calls::peek_out, steps::specs::Enter::on_world))]
pub fn peek_notifications(mem: &[u64], pid: u64, area: &mut [u64]) -> Result<Done, Refused>
    ensures { record { reply = told result; area = area.new } ≡ peek_out mem.now pid area.old }
{
    let d = enter_world(mem)?;
    let q = queue_for(mem, d, pid);
    let count = count_for(mem, d, q);
    if area.len() < 3 * count as usize {
        Err(Refusal::BadField)?;
    }
    copy_for(mem, d, q, count, area);
    Ok(Done::with(count))
}

// The queue at place q, if there is one, is no more.
fn remove_queue(mem: &mut [u64], d: Numbers, q: usize)
    requires { Fits d mem.old }
    ensures { mem.new ≡ without d mem.old q }
{
    if q < d.queues {
        free_at(mem, d, q);
    }
}

/// The same as a peek, and the queue is then no more.
#[tactic(auto, using(crate::proofs::Noticing::few_for), unfolding(crate::specs::Calls::drain_out, steps::specs::Enter::on_world))]
pub fn drain_notifications(mem: &mut [u64], pid: u64, area: &mut [u64]) -> Result<Done, Refused>
    ensures { record { reply = record { reply = told result; area = area.new }; memory = mem.new }
        ≡ drain_out mem.old pid area.old }
{
    let d = enter_world(mem)?;
    let q = queue_for(mem, d, pid);
    let count = count_for(mem, d, q);
    if area.len() < 3 * count as usize {
        Err(Refusal::BadField)?;
    }
    copy_for(mem, d, q, count, area);
    remove_queue(mem, d, q);
    Ok(Done::with(count))
}

/// How many notices a pid has.
#[tactic(auto, unfolding(crate::specs::Calls::notification_count_out, steps::specs::Enter::on_world))]
pub fn notification_count(mem: &[u64], pid: u64) -> Result<Done, Refused>
    ensures { told result ≡ notification_count_out mem.now pid }
{
    let d = enter_world(mem)?;
    let q = queue_for(mem, d, pid);
    Ok(Done::with(count_for(mem, d, q)))
}

/// Drops the notices of a pid, and its queue.
#[tactic(auto, unfolding(crate::specs::Calls::cleanup_out, steps::specs::Enter::on_world))]
pub fn cleanup_process_notifications(mem: &mut [u64], pid: u64) -> Result<Done, Refused>
    ensures { record { reply = told result; memory = mem.new } ≡ cleanup_out mem.old pid }
{
    let d = enter_world(mem)?;
    let q = queue_for(mem, d, pid);
    remove_queue(mem, d, q);
    Ok(Done::with(0))
}
