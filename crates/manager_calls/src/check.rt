// Check, and whether a token is valid.
ghost use Rattle.std.specs.Prelude.{◌≡◌};
ghost use Rattle.steps.specs.Ready.{Ready};
ghost use Rattle.steps.specs.Replies.{told};
ghost use Rattle.manager_calls.specs.Calls.{valid_in, check_out, is_valid_out};
ghost use Rattle.manager_calls.specs.Calls as spec;

use super::tokens::is_current;
use answers::Refusal;
use space::LookedUp;
use space_steps::spaces;
use steps::enter::{enter_space, enter_world};
use steps::registered::place_of;
use steps::{Done, Refused};
use token::{CapabilityToken, Rights};
use world::Numbers;
use world::head::REGISTERED;

// Whether the token is registered, unrevoked, of its generation.
fn valid_in(mem: &[u64], d: Numbers, token: CapabilityToken) -> bool
    requires { Ready d mem.now }
    ensures { result ≡ valid_in d mem.now token.0 }
{
    let k = place_of(mem, d, token.id());
    k < mem[REGISTERED] as usize && is_current(mem, d, token, k)
}

// Whether the entry that was looked for is there with all the rights required.
fn grants(l: LookedUp, required: Rights) -> bool
    ensures { result ≡ spec.grants required.0 l.got }
{
    match l.got {
        Some(entry) => entry.rights.contains(required),
        None => false,
    }
}

/// Looks the token up in the space, counted, and checks its entry: 2 where it has not all the rights required, then 3 where the token is
/// not registered, revoked or of another generation. The count is the slots visited, on these refusals too.
#[tactic(auto, using(steps::proofs::laws::ReadyKept::ready_lookup), unfolding(crate::specs::Calls::check_out, steps::specs::Enter::on_space, base::specs::Choose::when))]
pub fn check_capability(
    mem: &mut [u64],
    token: CapabilityToken,
    required: Rights,
    s: usize,
) -> Result<Done, Refused>
    ensures { record { reply = told result; memory = mem.new } ≡ check_out mem.old token.0 required.0 s }
{
    let d = enter_space(mem, s)?;
    let l = spaces::lookup(mem, d, s, token);
    if !grants(l, required) {
        return Err(Refused::after(Refusal::InsufficientRights, l.visits));
    }
    if !valid_in(mem, d, token) {
        return Err(Refused::after(Refusal::CapabilityRevoked, l.visits));
    }
    Ok(Done {
        value: 0,
        count: l.visits,
    })
}

/// Whether a token is registered, unrevoked and of its generation: the value is 1 or 0.
#[tactic(auto, unfolding(crate::specs::Calls::is_valid_out, steps::specs::Enter::on_world))]
pub fn is_valid(mem: &[u64], token: CapabilityToken) -> Result<Done, Refused>
    ensures { told result ≡ is_valid_out mem.now token.0 }
{
    let d = enter_world(mem)?;
    Ok(Done::with(valid_in(mem, d, token) as u64))
}
