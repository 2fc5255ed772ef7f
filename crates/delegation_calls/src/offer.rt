// The children that a capability has already: one that the target holds is offered again.
ghost use Rattle.std.specs.Prelude.{◌≡◌, ◌<◌, ◌≤◌};
ghost use Rattle.steps.specs.Ready.{Ready};
ghost use Rattle.token.specs.Token.{type_of};
ghost use Rattle.delegation_calls.specs.Delegation.{held_with, open_child, offered_from, offered};
ghost use Rattle.delegation_calls.specs.Offer.{offer_of};

use manager_calls::tokens::token_of;
use space::LookedUp;
use space_steps::spaces;
use steps::registered::{id_at, link_at, place_of, state_at};
use token::{CapabilityToken, Rights};
use world::Numbers;
use world::head::REGISTERED;

// Whether the entry that was looked for is there with exactly these rights.
fn held_with(l: LookedUp, rights: Rights) -> bool
    ensures { result ≡ held_with rights.0 l.got }
{
    match l.got {
        Some(entry) => entry.rights == rights,
        None => false,
    }
}

// Whether place k is an unrevoked child of place p.
fn is_open_child(mem: &[u64], d: Numbers, p: usize, k: usize) -> bool
    requires { Ready d mem.now × (p ≤ d.places) × (k < d.places) }
    ensures { result ≡ open_child d mem.now p k }
{
    link_at(mem, d, k) == p as u64 + 1 && state_at(mem, d, k) % 2 == 0
}

// Place k, where it is an unrevoked child of place p: its token, if the target holds it with these rights.
fn offer_at(
    mem: &mut [u64],
    d: Numbers,
    target: usize,
    token: CapabilityToken,
    rights: Rights,
    p: usize,
    k: usize,
) -> Option<CapabilityToken>
    requires { Ready d mem.old × (target < d.spaces) × (p ≤ d.places) × (k < d.places) }
    ensures { (result ≡ offer_of (offered_from d target p (type_of token.0) rights.0 k 1 mem.old))
        × (mem.new ≡ (offered_from d target p (type_of token.0) rights.0 k 1 mem.old).memory) }
{
    if !is_open_child(mem, d, p, k) {
        return None;
    }
    let child = token_of(id_at(mem, d, k), token.cap_type(), rights);
    if held_with(spaces::lookup(mem, d, target, child), rights) {
        return Some(child);
    }
    None
}

// The first unrevoked child in list order that the target holds with these rights.
pub fn find_child(
    mem: &mut [u64],
    d: Numbers,
    target: usize,
    token: CapabilityToken,
    rights: Rights,
) -> Option<CapabilityToken>
    requires { Ready d mem.old × (target < d.spaces) }
    ensures { (result ≡ offer_of (offered d target token.0 rights.0 mem.old))
        × (mem.new ≡ (offered d target token.0 rights.0 mem.old).memory) }
{
    let n = mem[REGISTERED] as usize;
    let p = place_of(mem, d, token.id());
    for k in 0..n {
        let child = offer_at(mem, d, target, token, rights, p, k);
        if child.is_some() {
            return child;
        }
    }
    None
}
