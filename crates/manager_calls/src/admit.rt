// A capability that was registered enters a space; if the space refuses it, it leaves the registry again and its id is recycled.
ghost use Rattle.std.specs.Prelude.{◌≡◌, ◌-◌, ◌<◌, ◌≤◌};
ghost use Rattle.world.specs.Numbers.{registered_of, recycled_of};
ghost use Rattle.steps.specs.Ready.{Ready};
ghost use Rattle.answers.specs.Answer.{OutOfMemory, answer_of};
ghost use Rattle.steps.specs.Replies.{told, refuse};
ghost use Rattle.steps.specs.Steps.{unregister_step, recycle_step};
ghost use Rattle.manager_calls.specs.Admit.{admitted};

use answers::Refusal;
use space_steps::spaces;
use steps::registered::{add, recycle, unregister};
use steps::{Done, Refused};
use token::{CapabilityToken, Rights};
use world::Numbers;
use world::head::REGISTERED;

/// An id that was taken goes to the recycled set, and its call answers this, with the value 0.
pub fn give_back(
    mem: &mut [u64],
    d: Numbers,
    id: u64,
    answer: Result<(), Refusal>,
) -> Result<Done, Refused>
    requires { Ready d mem.old × (recycled_of mem.old ≤ d.places) }
    ensures { record { reply = told result; memory = mem.new } ≡ refuse (recycle_step d id mem.old) (answer_of answer) }
{
    recycle(mem, d, id);
    answer?;
    Ok(Done::with(0))
}

// The id registered last leaves the registry and its parent's list.
#[tactic(auto, using(steps::proofs::laws::ReadyKept::unregister_leaves, crate::proofs::Admitting::room_left))]
fn take_back(mem: &mut [u64], d: Numbers, id: u64) -> Result<Done, Refused>
    requires { Ready d mem.old × (0 < registered_of mem.old) × (recycled_of mem.old ≤ d.places) }
    ensures { record { reply = told result; memory = mem.new }
        ≡ refuse (recycle_step d id (unregister_step d (registered_of mem.old - 1) mem.old)) OutOfMemory }
{
    let last = mem[REGISTERED] as usize - 1;
    unregister(mem, d, last);
    give_back(mem, d, id, Err(Refusal::OutOfMemory))
}

// The entry of the id registered last goes into space s, and is counted in word i of the head.
#[tactic(auto, using(steps::proofs::laws::ReadyKept::insert_stays, crate::proofs::Admitting::room_stays))]
pub fn admit(
    mem: &mut [u64],
    d: Numbers,
    s: usize,
    id: u64,
    token: CapabilityToken,
    object: u64,
    rights: Rights,
    i: usize,
) -> Result<Done, Refused>
    requires { Ready d mem.old
        × (s < d.spaces)
        × (0 < registered_of mem.old)
        × (recycled_of mem.old ≤ d.places)
        × (7 ≤ i)
        × (i < 11) }
    ensures { record { reply = told result; memory = mem.new } ≡ admitted d s id token.0 object rights.0 i mem.old }
{
    let Ok(done) = spaces::insert(mem, d, s, token, object, rights, token.0) else {
        return take_back(mem, d, id);
    };
    add(mem, i, 1);
    Ok(done)
}
