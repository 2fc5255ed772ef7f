// The notices of all processes, counted.
ghost use Rattle.std.specs.Prelude.{◌≡◌, ltb};
ghost use Rattle.base.specs.Below.{sum, one};
ghost use Rattle.steps.specs.Ready.{Fits};
ghost use Rattle.world.specs.Sound.{SoundAt, lengths};
ghost use Rattle.notification_calls.specs.Calls.{told_queues, notification_stats_out};

use super::Queues;
use answers::Refusal;
use revocation_steps::queues::queue_length;
use steps::enter::enter_world;
use world::Numbers;

// How many places have a queue.
fn used_queues(mem: &[u64], d: Numbers) -> usize
    requires { Fits d mem.now }
    ensures { result ≡ sum (λ q. one (ltb 0 (lengths d mem.now q))) d.queues }
{
    let mut used = 0;
    for q in 0..d.queues {
        used += (0 < queue_length(mem, d, q)) as usize;
    }
    used
}

// How many notices all queues have.
fn all_notices(mem: &[u64], d: Numbers) -> u64
    requires { SoundAt d mem.now }
    ensures { result ≡ sum (lengths d mem.now) d.queues }
{
    let mut notices = 0;
    for q in 0..d.queues {
        notices += queue_length(mem, d, q);
    }
    notices
}

/// How many processes have notifications, and how many notifications there are.
#[tactic(auto, unfolding(crate::specs::Calls::notification_stats_out, steps::specs::Enter::on_world))]
pub fn notification_stats(mem: &[u64]) -> Result<Queues, Refusal>
    ensures { told_queues result ≡ notification_stats_out mem.now }
{
    let d = enter_world(mem)?;
    Ok(Queues {
        processes: used_queues(mem, d) as u64,
        notifications: all_notices(mem, d),
    })
}
