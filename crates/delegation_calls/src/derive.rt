// A new child of a capability: room in the parent's list, an id, the parent looked at, then registered, recorded, inserted.
ghost use Rattle.std.specs.Prelude.{◌≡◌, ◌<◌, ◌≤◌, Some};
ghost use Rattle.steps.specs.Ready.{Ready};
ghost use Rattle.steps.specs.Replies.{told};
ghost use Rattle.world.specs.Numbers.{registered_of, recycled_of};
ghost use Rattle.delegation_calls.specs.Delegation.{derived, derived_with, with_id, with_room};

use answers::Refusal;
use manager_calls::admit::{admit, give_back};
use manager_calls::tokens::{is_current, token_of};
use steps::ids::take_id;
use steps::registered::{child_count, collect, give_list, object_at, place_of, register};
use steps::{Done, Refused};
use token::{CapabilityToken, Rights};
use world::Numbers;
use world::head::{DELEGATED, REGISTERED};

// The child is registered with its parent's object, recorded, inserted.
#[tactic(auto, using(steps::proofs::laws::ReadyKept::list_stays, manager_calls::proofs::Admitting::room_stays, manager_calls::proofs::Admitting::room_registered))]
fn derive_with(
    mem: &mut [u64],
    d: Numbers,
    target: usize,
    token: CapabilityToken,
    rights: Rights,
    id: u64,
    p: usize,
) -> Result<Done, Refused>
    requires { Ready d mem.old
        × (target < d.spaces)
        × (recycled_of mem.old ≤ d.places)
        × (p < registered_of mem.old)
        × (registered_of mem.old < d.places) }
    ensures { record { reply = told result; memory = mem.new }
        ≡ derived_with d target token.0 rights.0 id p mem.old }
{
    let object = object_at(mem, d, p);
    give_list(mem, d, p);
    register(mem, d, id, object, (p + 1) as u64);
    let child = token_of(id, token.cap_type(), rights);
    admit(mem, d, target, id, child, object, rights, DELEGATED)
}

// The id was taken: the parent is looked at.
#[tactic(auto, unfolding(base::specs::Choose::when))]
fn derive_taken(
    mem: &mut [u64],
    d: Numbers,
    target: usize,
    token: CapabilityToken,
    rights: Rights,
    id: u64,
) -> Result<Done, Refused>
    requires { Ready d mem.old × (target < d.spaces) × (recycled_of mem.old ≤ d.places) }
    ensures { record { reply = told result; memory = mem.new } ≡ derived d target token.0 rights.0 mem.old (Some id) }
{
    let n = mem[REGISTERED] as usize;
    let p = place_of(mem, d, token.id());
    if n <= p {
        return give_back(mem, d, id, Err(Refusal::InvalidCapability));
    }
    if !is_current(mem, d, token, p) {
        return give_back(mem, d, id, Err(Refusal::CapabilityRevoked));
    }
    if d.places <= n {
        return give_back(mem, d, id, Err(Refusal::RegistryFull));
    }
    derive_with(mem, d, target, token, rights, id, p)
}

// An id is taken for the child.
#[tactic(auto, using(steps::proofs::laws::ReadyKept::ready_take, steps::proofs::laws::ReadyKept::take_room), unfolding(crate::specs::Delegation::with_id))]
fn derive(
    mem: &mut [u64],
    d: Numbers,
    target: usize,
    token: CapabilityToken,
    rights: Rights,
) -> Result<Done, Refused>
    requires { Ready d mem.old × (target < d.spaces) }
    ensures { record { reply = told result; memory = mem.new } ≡ with_id d target token.0 rights.0 mem.old }
{
    let id = take_id(mem, d).ok_or(Refusal::IdExhausted)?;
    derive_taken(mem, d, target, token, rights, id)
}

/// With 1,024 children the collection, then 10 exactly if 1,024 remain.
#[tactic(auto, using(steps::proofs::laws::ReadyKept::ready_collect), unfolding(crate::specs::Delegation::with_room, base::specs::Choose::when))]
pub fn with_room(
    mem: &mut [u64],
    d: Numbers,
    target: usize,
    token: CapabilityToken,
    rights: Rights,
) -> Result<Done, Refused>
    requires { Ready d mem.old × (target < d.spaces) }
    ensures { record { reply = told result; memory = mem.new } ≡ with_room d target token.0 rights.0 mem.old }
{
    let p = place_of(mem, d, token.id());
    if child_count(mem, d, p) < 1024 {
        return derive(mem, d, target, token, rights);
    }
    collect(mem, d, p);
    if 1024 <= child_count(mem, d, p) {
        return Err(Refusal::QuotaExceeded.into());
    }
    derive(mem, d, target, token, rights)
}
