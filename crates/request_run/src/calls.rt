// The call that a good record asks for.
ghost use Rattle.std.specs.Prelude.{◌≡◌, ◌^◌, ◌<◌, ◌≤◌};
ghost use Rattle.steps.specs.Replies.{told};
ghost use Rattle.request.specs.Op.{number_of};
ghost use Rattle.request_run.specs.Run.{drained, called, answered};

use request::{Op, Request, judge};
use steps::{Done, Refused};
use token::{CapabilityToken, Rights};

// The spaces of the program's world.
const SPACES: u64 = 4;

// The processes that are told of a revocation.
const PIDS: [u64; 2] = [1, 2];

// The notices go to an area of its own.
#[tactic(auto, unfolding(crate::specs::Run::drained))]
fn drain(mem: &mut [u64], pid: u64) -> Result<Done, Refused>
    ensures { record { reply = told result; memory = mem.new } ≡ drained pid mem.old }
{
    let mut area = [0u64; 768];
    notification_calls::drain_notifications(mem, pid, &mut area)
}

// The call of an operation.
#[tactic(auto, unfolding(crate::specs::Run::choices))]
fn call(op: Op, r: Request, mem: &mut [u64]) -> Result<Done, Refused>
    requires { (number_of op ≡ r.op) × (r.cap_type ≤ 15) × (r.rights < 2 ^ 32) }
    ensures { record { reply = told result; memory = mem.new } ≡ called r mem.old }
{
    let s = r.space as usize;
    let second = r.second as usize;
    let token = CapabilityToken(r.a);
    let rights = Rights(r.rights as u32);
    match op {
        Op::Create => manager_calls::create_capability(
            mem,
            s,
            r.a,
            r.valid == 1,
            r.cap_type as u8,
            rights,
        ),
        Op::Delegate => delegation_calls::delegate(mem, token, s, second, rights),
        Op::Lookup => space_reads::lookup(mem, s, token),
        Op::Check => manager_calls::check_capability(mem, token, rights, s),
        Op::Remove => space_calls::remove(mem, s, token),
        Op::Delete => manager_calls::delete(mem, token),
        Op::RevokeHeld => revocation_calls::revoke_held(mem, s, token, r.b, &PIDS),
        Op::Clear => space_calls::clear(mem, s),
        Op::Copy => space_calls::copy(mem, s, second),
        Op::RevokeAll => space_calls::revoke_all(mem, s),
        Op::Insert => space_calls::insert(mem, s, token, r.b, rights),
        Op::CreateInSpace => space_calls::create_capability(mem, s, rights, r.a),
        Op::RevokeInSpace => space_calls::revoke(mem, s, r.a),
        Op::Drain => drain(mem, r.a),
        Op::RevokeCapability => revocation_calls::revoke_capability(mem, token, r.b, &PIDS),
    }
}

// A record is refused before its call, or its call is made.
#[tactic(auto, unfolding(crate::specs::Run::answered))]
pub fn answer(r: Request, mem: &mut [u64]) -> Result<Done, Refused>
    requires { (r.cap_type ≤ 15) × (r.rights < 2 ^ 32) }
    ensures { record { reply = told result; memory = mem.new } ≡ answered r mem.old }
{
    let op = judge(r, SPACES)?;
    call(op, r, mem)
}
