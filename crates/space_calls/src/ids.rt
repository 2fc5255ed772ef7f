// The calls that take an id, and the one that removes what a space made of an id.
ghost use Rattle.std.specs.Prelude.{◌≡◌, ◌<◌, Some};
ghost use Rattle.steps.specs.Ready.{Ready};
ghost use Rattle.steps.specs.Replies.{told};
ghost use Rattle.space_calls.specs.Calls.{alloc_out, create_taken, create_out, revoke_out};

use answers::Refusal;
use space_steps::spaces;
use steps::enter::{enter_space, enter_world};
use steps::ids::take_id;
use steps::{Done, Refused};
use token::{CapabilityToken, Rights};
use world::Numbers;

/// Takes an id, the value: the smallest recycled one, else the next. 9 where none is left.
#[tactic(auto, unfolding(crate::specs::Calls::alloc_out, steps::specs::Enter::on_world))]
pub fn alloc_cap_id(mem: &mut [u64]) -> Result<Done, Refused>
    ensures { record { reply = told result; memory = mem.new } ≡ alloc_out mem.old }
{
    let d = enter_world(mem)?;
    let id = take_id(mem, d).ok_or(Refusal::IdExhausted)?;
    Ok(Done::with(id))
}

// A token of the id that was taken and the space's generation, inserted.
#[tactic(auto, unfolding(steps::specs::Steps::facts_of))]
fn create_with(
    mem: &mut [u64],
    d: Numbers,
    s: usize,
    rights: Rights,
    object: u64,
    id: u64,
) -> Result<Done, Refused>
    requires { Ready d mem.old × (s < d.spaces) }
    ensures { record { reply = told result; memory = mem.new }
        ≡ create_taken d s rights.0 object mem.old (Some id) }
{
    let generation = spaces::facts(mem, d, s).generation;
    let token = CapabilityToken::from_id_and_generation(id, generation).map_err(
        |_| Refusal::SpaceIds,
    )?;
    spaces::insert(mem, d, s, token, object, rights, id)
}

/// The source's `create_capability`: the value is the id. 12 where none is left; the id is lost where the insert is refused.
#[tactic(auto, using(steps::proofs::laws::ReadyKept::ready_take), unfolding(crate::specs::Calls::create_out, steps::specs::Enter::on_space))]
pub fn create_capability(
    mem: &mut [u64],
    s: usize,
    rights: Rights,
    object: u64,
) -> Result<Done, Refused>
    ensures { record { reply = told result; memory = mem.new } ≡ create_out mem.old s rights.0 object }
{
    let d = enter_space(mem, s)?;
    let id = take_id(mem, d).ok_or(Refusal::SpaceIds)?;
    create_with(mem, d, s, rights, object, id)
}

/// Removes exactly the token that the space would have made of the id. 21 for an id of more than 48 bits, 8 where the space does not hold
/// it.
#[tactic(auto, unfolding(crate::specs::Calls::revoke_out, steps::specs::Enter::on_space, steps::specs::Steps::facts_of))]
pub fn revoke(mem: &mut [u64], s: usize, id: u64) -> Result<Done, Refused>
    ensures { record { reply = told result; memory = mem.new } ≡ revoke_out mem.old s id }
{
    let d = enter_space(mem, s)?;
    let generation = spaces::facts(mem, d, s).generation;
    let token = CapabilityToken::from_id_and_generation(id, generation)?;
    let l = spaces::remove(mem, d, s, token);
    l.got.ok_or(Refused::after(Refusal::NotFound, l.visits))?;
    Ok(Done {
        value: 0,
        count: l.visits,
    })
}
