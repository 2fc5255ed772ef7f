// Create: a new capability of an object, registered and inserted.
ghost use Rattle.std.specs.Prelude.{◌≡◌, ◌<◌, ◌≤◌, Some};
ghost use Rattle.steps.specs.Ready.{Ready};
ghost use Rattle.steps.specs.Replies.{told};
ghost use Rattle.world.specs.Numbers.{recycled_of};
ghost use Rattle.manager_calls.specs.Calls.{created, create_out};

use super::admit::{admit, give_back};
use super::tokens::token_of;
use answers::Refusal;
use steps::enter::enter_space;
use steps::ids::take_id;
use steps::registered::register;
use steps::{Done, Refused};
use token::Rights;
use world::Numbers;
use world::head::{CREATED, REGISTERED};

// The id that was taken is registered and its entry inserted.
#[tactic(auto, using(crate::proofs::Admitting::room_registered), unfolding(base::specs::Choose::when))]
fn create_with(
    mem: &mut [u64],
    d: Numbers,
    s: usize,
    object: u64,
    cap_type: u8,
    rights: Rights,
    id: u64,
) -> Result<Done, Refused>
    requires { Ready d mem.old × (s < d.spaces) × (cap_type ≤ 15) × (recycled_of mem.old ≤ d.places) }
    ensures { record { reply = told result; memory = mem.new }
        ≡ created d s object cap_type rights.0 mem.old (Some id) }
{
    if d.places <= mem[REGISTERED] as usize {
        return give_back(mem, d, id, Err(Refusal::RegistryFull));
    }
    register(mem, d, id, object, 0);
    let token = token_of(id, cap_type, rights);
    admit(mem, d, s, id, token, object, rights, CREATED)
}

/// The source's `create_capability`: the value is the token, the count how many entries its insert moved. 21 for a type over 15, 5 for an
/// object that is not valid, 9 where no id is left, 22 where the registry is full, 4 where the space refuses the entry.
#[tactic(auto, using(steps::proofs::laws::ReadyKept::ready_take, steps::proofs::laws::ReadyKept::take_room), unfolding(crate::specs::Calls::create_out, steps::specs::Enter::on_space, base::specs::Choose::when))]
pub fn create_capability(
    mem: &mut [u64],
    s: usize,
    object: u64,
    valid: bool,
    cap_type: u8,
    rights: Rights,
) -> Result<Done, Refused>
    ensures { record { reply = told result; memory = mem.new } ≡ create_out mem.old s object valid cap_type rights.0 }
{
    let d = enter_space(mem, s)?;
    if 15 < cap_type {
        return Err(Refusal::BadField.into());
    }
    if !valid {
        return Err(Refusal::InvalidObject.into());
    }
    let id = take_id(mem, d).ok_or(Refusal::IdExhausted)?;
    create_with(mem, d, s, object, cap_type, rights, id)
}
