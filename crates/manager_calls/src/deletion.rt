// Delete: a capability leaves the registry, and its id may be taken again.
ghost use Rattle.std.specs.Prelude.{◌≡◌, ◌<◌, ◌≤◌};
ghost use Rattle.steps.specs.Ready.{Ready};
ghost use Rattle.steps.specs.Replies.{told};
ghost use Rattle.steps.specs.Steps.{unregister_step, recycle_step, add_step};
ghost use Rattle.world.specs.Numbers.{registered_of, recycled_of};
ghost use Rattle.manager_calls.specs.Calls.{delete_out};

use answers::Refusal;
use steps::enter::enter_world;
use steps::registered::{add, place_of, recycle, unregister};
use steps::{Done, Refused};
use token::CapabilityToken;
use world::Numbers;
use world::head::{DELETED, RECYCLED, REGISTERED};

// The id of place k leaves and is recycled; the deletion is counted.
#[tactic(auto, using(steps::proofs::laws::ReadyKept::unregister_leaves, crate::proofs::Admitting::room_left))]
fn delete_at(mem: &mut [u64], d: Numbers, k: usize, id: u64)
    requires { Ready d mem.old × (k < registered_of mem.old) × (recycled_of mem.old ≤ d.places) }
    ensures { mem.new ≡ add_step 10 1 (recycle_step d id (unregister_step d k mem.old)) }
{
    unregister(mem, d, k);
    recycle(mem, d, id);
    add(mem, DELETED, 1);
}

/// Deletes the capability of the token's id, which may be taken again; entries in spaces stay. 8 for an id that is not registered, 23 where
/// the recycled set is full.
#[tactic(auto, unfolding(crate::specs::Calls::delete_out, steps::specs::Enter::on_world, base::specs::Choose::when))]
pub fn delete(mem: &mut [u64], token: CapabilityToken) -> Result<Done, Refused>
    ensures { record { reply = told result; memory = mem.new } ≡ delete_out mem.old token.0 }
{
    let d = enter_world(mem)?;
    let id = token.id();
    let k = place_of(mem, d, id);
    if mem[REGISTERED] as usize <= k {
        return Err(Refusal::NotFound.into());
    }
    if d.places < mem[RECYCLED] as usize {
        return Err(Refusal::RecycleFull.into());
    }
    delete_at(mem, d, k, id);
    Ok(Done::with(0))
}
