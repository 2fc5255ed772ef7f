// Delegate: the target space gets a child of the capability, with the rights that both the held entry and the request have, or the child
// that it holds already.
ghost use Rattle.std.specs.Prelude.{◌≡◌, ◌<◌};
ghost use Rattle.space.specs.Lookup.{looked_up};
ghost use Rattle.steps.specs.Ready.{Ready};
ghost use Rattle.steps.specs.Replies.{told};
ghost use Rattle.steps.specs.Steps.{space_of, lookup_step};
ghost use Rattle.delegation_calls.specs.Delegation.{offering, offered, granting, delegate_out};

use super::derive::with_room;
use super::offer::find_child;
use answers::Refusal;
use space_steps::spaces;
use steps::enter::enter_space;
use steps::{Done, Refused};
use token::{CapabilityToken, Rights};
use world::Numbers;

// A child that the target holds already is returned, not counted as delegated.
#[tactic(auto, using(crate::proofs::Offering::offering_held, crate::proofs::Offering::offering_absent, crate::proofs::Offering::ready_offered))]
fn offer_or_derive(
    mem: &mut [u64],
    d: Numbers,
    target: usize,
    token: CapabilityToken,
    rights: Rights,
) -> Result<Done, Refused>
    requires { Ready d mem.old × (target < d.spaces) }
    ensures { record { reply = told result; memory = mem.new }
        ≡ offering d target token.0 rights.0 (offered d target token.0 rights.0 mem.old) }
{
    if let Some(child) = find_child(mem, d, target, token, rights) {
        return Ok(Done::with(child.0));
    }
    with_room(mem, d, target, token, rights)
}

// The token is looked up in the source space, and its entry must have GRANT.
#[tactic(auto, using(steps::proofs::laws::ReadyKept::ready_lookup), unfolding(base::specs::Choose::when))]
fn delegate_from(
    mem: &mut [u64],
    d: Numbers,
    token: CapabilityToken,
    source: usize,
    target: usize,
    rights: Rights,
) -> Result<Done, Refused>
    requires { Ready d mem.old × (source < d.spaces) × (target < d.spaces) }
    ensures { record { reply = told result; memory = mem.new }
        ≡ granting d target token.0 rights.0 (lookup_step d source token.0 mem.old)
        (looked_up (space_of d source mem.old) token.0).got }
{
    let l = spaces::lookup(mem, d, source, token);
    let held = l.got.ok_or(Refusal::InvalidCapability)?.rights;
    if !held.contains(Rights::GRANT) {
        return Err(Refusal::PermissionDenied.into());
    }
    offer_or_derive(mem, d, target, token, held.intersection(rights))
}

/// The source's `delegate`: the value is the token, the count how many entries its insert moved. 1 for a token that the source space does
/// not hold or that is not registered, 3 for one that is revoked or of another generation, 6 without GRANT, 9, 10, 22 or 4 where an id, the
/// parent's list, the registry or the target space has no room.
#[tactic(auto, unfolding(crate::specs::Delegation::delegate_out, steps::specs::Enter::on_space, base::specs::Choose::when))]
pub fn delegate(
    mem: &mut [u64],
    token: CapabilityToken,
    source: usize,
    target: usize,
    rights: Rights,
) -> Result<Done, Refused>
    ensures { record { reply = told result; memory = mem.new }
        ≡ delegate_out mem.old token.0 source target rights.0 }
{
    let d = enter_space(mem, source)?;
    if d.spaces <= target {
        return Err(Refusal::BadSpace.into());
    }
    delegate_from(mem, d, token, source, target, rights)
}
