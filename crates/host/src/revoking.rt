// The calls of revocation and those for notifications, for a host: the memory, the process list and the tokens of a batch are slices of
// words that the host lends, a token its word. Each is the call of the same name in `revocation_reads`, `revocation_calls` or
// `notification_calls`, with its answer as a number.
ghost use Rattle.std.specs.Prelude.{◌≡◌};
ghost use Rattle.notification_calls.specs.Calls.{notify_out, drain_out, peek_out, notification_count_out, cleanup_out, notification_stats_out};
ghost use Rattle.revocation_calls.specs.Calls.{revoke_out, revoke_capability_out, revoke_held_out, revoke_batch_out};
ghost use Rattle.revocation_reads.specs.Calls.{is_revoked_out, epoch_out, descendants_out, reason_out};
ghost use Rattle.host_replies.specs.Replies.{call_answer, told, area_answer};
ghost use Rattle.host.specs.Revocation.{queues_answer};

use answers::Refusal;
use host_replies::CallAnswer;
use notification_calls::Queues;
use token::CapabilityToken;

// The answer's number, how many processes have notifications, and how many notifications there are.
#[repr(C)]
#[derive(Clone, Copy, PartialEq, Eq, Debug)]
pub struct QueuesAnswer {
    pub answer: u8,
    pub processes: u64,
    pub notifications: u64,
}

impl From<Result<Queues, Refusal>> for QueuesAnswer {
    ghost use Rattle.host.specs.Revocation.{QueuesAnswers};

    ghost from_gives = { QueuesAnswers };

    #[tactic(auto, unfolding(crate::specs::Revocation::queues_answer))]
    fn from(outcome: Result<Queues, Refusal>) -> Self {
        match outcome {
            Ok(queues) => QueuesAnswer {
                answer: 0,
                processes: queues.processes,
                notifications: queues.notifications,
            },
            Err(refusal) => QueuesAnswer {
                answer: refusal.into(),
                processes: 0,
                notifications: 0,
            },
        }
    }
}

// ---- revoking

#[unsafe(no_mangle)]
pub extern "C" fn stonespry_revoke(
    mem: &mut [u64],
    token: u64,
    time: u64,
    pids: &[u64],
) -> CallAnswer
    ensures { record { reply = result; memory = mem.new }
        ≡ told call_answer (revoke_out mem.old token time pids.now) }
{
    revocation_calls::revoke(mem, CapabilityToken(token), time, pids).into()
}

#[unsafe(no_mangle)]
pub extern "C" fn stonespry_revoke_capability(
    mem: &mut [u64],
    token: u64,
    time: u64,
    pids: &[u64],
) -> CallAnswer
    ensures { record { reply = result; memory = mem.new }
        ≡ told call_answer (revoke_capability_out mem.old token time pids.now) }
{
    revocation_calls::revoke_capability(mem, CapabilityToken(token), time, pids).into()
}

#[unsafe(no_mangle)]
pub extern "C" fn stonespry_revoke_held(
    mem: &mut [u64],
    s: usize,
    token: u64,
    time: u64,
    pids: &[u64],
) -> CallAnswer
    ensures { record { reply = result; memory = mem.new }
        ≡ told call_answer (revoke_held_out mem.old s token time pids.now) }
{
    revocation_calls::revoke_held(mem, s, CapabilityToken(token), time, pids).into()
}

#[unsafe(no_mangle)]
pub extern "C" fn stonespry_revoke_batch(
    mem: &mut [u64],
    tokens: &[u64],
    time: u64,
    pids: &[u64],
) -> CallAnswer
    ensures { record { reply = result; memory = mem.new }
        ≡ told call_answer (revoke_batch_out mem.old tokens.now time pids.now) }
{
    revocation_calls::revoke_batch(mem, tokens, time, pids).into()
}

// ---- what revocation says of itself

#[unsafe(no_mangle)]
pub extern "C" fn stonespry_is_revoked(mem: &[u64], token: u64) -> CallAnswer
    ensures { result ≡ call_answer (is_revoked_out mem.now token) }
{
    revocation_reads::is_revoked(mem, CapabilityToken(token)).into()
}

#[unsafe(no_mangle)]
pub extern "C" fn stonespry_epoch(mem: &[u64]) -> CallAnswer
    ensures { result ≡ call_answer (epoch_out mem.now) }
{
    revocation_reads::epoch(mem).into()
}

#[unsafe(no_mangle)]
pub extern "C" fn stonespry_get_derivation_tree(
    mem: &[u64],
    id: u64,
    area: &mut [u64],
) -> CallAnswer
    ensures { record { reply = result; area = area.new }
        ≡ area_answer (descendants_out mem.now id area.old) }
{
    revocation_reads::get_derivation_tree(mem, id, area).into()
}

// ---- notifications

#[unsafe(no_mangle)]
pub extern "C" fn stonespry_notify_process(
    mem: &mut [u64],
    pid: u64,
    id: u64,
    reason: u8,
    time: u64,
) -> CallAnswer
    ensures { record { reply = result; memory = mem.new }
        ≡ told call_answer (notify_out mem.old pid id «reason» time) }
{
    notification_calls::notify_process(mem, pid, id, reason, time).into()
}

#[unsafe(no_mangle)]
pub extern "C" fn stonespry_drain_notifications(
    mem: &mut [u64],
    pid: u64,
    area: &mut [u64],
) -> CallAnswer
    ensures { record { reply = record { reply = result; area = area.new }; memory = mem.new }
        ≡ told area_answer (drain_out mem.old pid area.old) }
{
    notification_calls::drain_notifications(mem, pid, area).into()
}

#[unsafe(no_mangle)]
pub extern "C" fn stonespry_peek_notifications(
    mem: &[u64],
    pid: u64,
    area: &mut [u64],
) -> CallAnswer
    ensures { record { reply = result; area = area.new } ≡ area_answer (peek_out mem.now pid area.old) }
{
    notification_calls::peek_notifications(mem, pid, area).into()
}

#[unsafe(no_mangle)]
pub extern "C" fn stonespry_notification_count(mem: &[u64], pid: u64) -> CallAnswer
    ensures { result ≡ call_answer (notification_count_out mem.now pid) }
{
    notification_calls::notification_count(mem, pid).into()
}

#[unsafe(no_mangle)]
pub extern "C" fn stonespry_cleanup_process_notifications(mem: &mut [u64], pid: u64) -> CallAnswer
    ensures { record { reply = result; memory = mem.new } ≡ told call_answer (cleanup_out mem.old pid) }
{
    notification_calls::cleanup_process_notifications(mem, pid).into()
}

#[unsafe(no_mangle)]
pub extern "C" fn stonespry_notification_stats(mem: &[u64]) -> QueuesAnswer
    ensures { result ≡ queues_answer (notification_stats_out mem.now) }
{
    notification_calls::notification_stats(mem).into()
}

// The name of a reason; the area is bytes.
#[unsafe(no_mangle)]
pub extern "C" fn stonespry_write_reason(reason: u8, area: &mut [u8]) -> CallAnswer
    ensures { record { reply = result; area = area.new } ≡ area_answer (reason_out «reason» area.old) }
{
    revocation_reads::write_reason(reason, area).into()
}
