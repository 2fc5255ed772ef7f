// What revocation says of itself: whether a token is in the log, the epoch, the descendants of an id, and the names of its reasons. No call
// asks anything of its arguments or of the memory: each but `write_reason`, which has no memory, looks first, and refuses by the table
// of answers.
#![tactic(auto)]

ghost use Rattle.std.specs.Prelude.{◌≡◌, ◌<◌};
ghost use Rattle.steps.specs.Replies.{into_area, told};
ghost use Rattle.world.specs.Numbers.{registered_of};
ghost use Rattle.world.specs.Sound.{SoundAt};
ghost use Rattle.revocation_reads.specs.Calls.{is_revoked_out, epoch_out, descendants, descendants_out, reason_out};

use answers::Refusal;
use revocation::RevocationReason;
use revocation_steps::descent::{descend, ids_at};
use revocation_steps::log::has_pair;
use steps::enter::enter_world;
use steps::registered::place_of;
use steps::{Done, Refused};
use token::CapabilityToken;
use world::Numbers;
use world::head::{EPOCH, REGISTERED};

/// Whether the log has the token's pair: 1 or 0.
#[tactic(auto, using(revocation_steps::proofs::Pairs::token_pair), unfolding(crate::specs::Calls::is_revoked_out, steps::specs::Enter::on_world))]
pub fn is_revoked(mem: &[u64], token: CapabilityToken) -> Result<Done, Refused>
    ensures { told result ≡ is_revoked_out mem.now token.0 }
{
    let d = enter_world(mem)?;
    let logged = has_pair(mem, d, token.0 % 0x100_0000_0000_0000);
    Ok(Done::with(logged as u64))
}

/// The epoch, in 64 bits, wrapping: up by one for each registered id that is revoked, and each time that a token of another id is accepted,
/// logged already or not.
#[tactic(auto, unfolding(crate::specs::Calls::epoch_out, steps::specs::Enter::on_world))]
pub fn epoch(mem: &[u64]) -> Result<Done, Refused>
    ensures { told result ≡ epoch_out mem.now }
{
    enter_world(mem)?;
    Ok(Done::with(mem[EPOCH]))
}

// The ids under place r, breadth first, to the front of the area.
fn list_under(mem: &[u64], d: Numbers, r: usize, area: &mut [u64]) -> Result<Done, Refused>
    requires { SoundAt d mem.now × (r < registered_of mem.now) }
    ensures { record { reply = told result; area = area.new }
        ≡ into_area (descendants d mem.now r) area.old }
{
    let mut order = [0u16; 4096];
    let count = descend(mem, d, r, &mut order);
    if area.len() < count - 1 {
        Err(Refusal::BadField)?;
    }
    ids_at(mem, d, &order[1..count], area);
    Ok(Done::with((count - 1) as u64))
}

/// All descendants of an id, breadth first, to the front of the area; the value is how many. 21 for an id of more than 48 bits, or an area
/// that is too short for them.
#[tactic(auto, using(crate::proofs::Listing::none_under), unfolding(crate::specs::Calls::descendants_out, steps::specs::Enter::on_world, base::specs::Choose::when))]
pub fn get_derivation_tree(mem: &[u64], id: u64, area: &mut [u64]) -> Result<Done, Refused>
    ensures { record { reply = told result; area = area.new } ≡ descendants_out mem.now id area.old }
{
    let d = enter_world(mem)?;
    if 0x1_0000_0000_0000 <= id {
        Err(Refusal::BadField)?;
    }
    let r = place_of(mem, d, id);
    if r < mem[REGISTERED] as usize {
        return list_under(mem, d, r, area);
    }
    Ok(Done::with(0))
}

/// Writes the name of a reason, by its number, to the front of the area; the value is its length in bytes. 21 for a number of no reason, or
/// an area that is too short for the name.
#[tactic(auto, unfolding(crate::specs::Calls::reason_out, steps::specs::Replies::into_area, base::specs::Choose::when))]
pub fn write_reason(reason: u8, area: &mut [u8]) -> Result<Done, Refused>
    ensures { record { reply = told result; area = area.new } ≡ reason_out «reason» area.old }
{
    let reason = RevocationReason::try_from(reason)?;
    if area.len() < reason.name().len() {
        Err(Refusal::BadField)?;
    }
    Ok(Done::with(revocation::write_reason(reason, area) as u64))
}
