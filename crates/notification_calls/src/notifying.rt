// A notice for a process, from outside any cascade: revocation.rs's `notify_process`.
ghost use Rattle.std.specs.Prelude.{◌≡◌, not, ltb};
ghost use Rattle.base.specs.Choose.{both};
ghost use Rattle.revocation_steps.specs.Revocation.{queue_for, free_queue};
ghost use Rattle.steps.specs.Ready.{Fits};
ghost use Rattle.steps.specs.Replies.{told};
ghost use Rattle.notification_calls.specs.Calls.{notify_out};

use answers::Refusal;
use revocation_steps::queues::{free_queue, notify, queue_for};
use steps::enter::enter_world;
use steps::{Done, Refused};
use world::Numbers;

// Whether a notice for the pid has nowhere to go: it has no queue, and no place is free.
fn has_no_place(mem: &[u64], d: Numbers, pid: u64) -> bool
    requires { Fits d mem.now }
    ensures { result
        ≡ both (not (ltb (queue_for d mem.now pid) d.queues)) (not (ltb (free_queue d mem.now) d.queues)) }
{
    d.queues <= queue_for(mem, d, pid) && d.queues <= free_queue(mem, d)
}

/// One notice for a pid, by the number of its reason. 21 for an id of more than 48 bits or a number of no reason, 25 where the pid has no
/// queue and none is free.
#[tactic(auto, using(steps::proofs::laws::Ready::queues_ready_at), unfolding(crate::specs::Calls::notify_out, steps::specs::Enter::on_world, base::specs::Choose::when))]
pub fn notify_process(
    mem: &mut [u64],
    pid: u64,
    id: u64,
    reason: u8,
    time: u64,
) -> Result<Done, Refused>
    ensures { record { reply = told result; memory = mem.new } ≡ notify_out mem.old pid id «reason» time }
{
    let d = enter_world(mem)?;
    if 0x1_0000_0000_0000 <= id {
        Err(Refusal::BadField)?;
    }
    if 3 < reason {
        Err(Refusal::BadField)?;
    }
    if has_no_place(mem, d, pid) {
        Err(Refusal::PidTableFull)?;
    }
    notify(mem, d, pid, id, time, reason as u64);
    Ok(Done::with(0))
}
