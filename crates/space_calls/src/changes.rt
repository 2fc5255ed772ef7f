// What changes a space: inserting, removing, clearing, copying, and its generation.
ghost use Rattle.std.specs.Prelude.{◌≡◌};
ghost use Rattle.steps.specs.Replies.{told};
ghost use Rattle.space_calls.specs.Calls.{insert_call_out, remove_out, increment_out, clear_out, revoke_all_out, copy_out};

use answers::Refusal;
use space_steps::spaces;
use steps::enter::enter_space;
use steps::{Done, Refused};
use token::{CapabilityToken, Rights};

/// Inserts an entry; the count is how many entries its rebuild moved. 11 at or over the quota, then 7 for an id that is already there.
#[tactic(auto, unfolding(crate::specs::Calls::insert_call_out, steps::specs::Enter::on_space))]
pub fn insert(
    mem: &mut [u64],
    s: usize,
    token: CapabilityToken,
    object: u64,
    rights: Rights,
) -> Result<Done, Refused>
    ensures { record { reply = told result; memory = mem.new } ≡ insert_call_out mem.old s token.0 object rights.0 }
{
    let d = enter_space(mem, s)?;
    spaces::insert(mem, d, s, token, object, rights, 0)
}

/// Removes the entry of exactly this token: the value is its object, the count the slots visited. 8 where the space does not hold it.
#[tactic(auto, unfolding(crate::specs::Calls::remove_out, steps::specs::Enter::on_space))]
pub fn remove(mem: &mut [u64], s: usize, token: CapabilityToken) -> Result<Done, Refused>
    ensures { record { reply = told result; memory = mem.new } ≡ remove_out mem.old s token.0 }
{
    let d = enter_space(mem, s)?;
    let l = spaces::remove(mem, d, s, token);
    let entry = l.got.ok_or(Refused::after(Refusal::NotFound, l.visits))?;
    Ok(Done {
        value: entry.object,
        count: l.visits,
    })
}

/// The space's generation goes up by one, in 8 bits, wrapping.
#[tactic(auto, unfolding(crate::specs::Calls::increment_out, steps::specs::Enter::on_space))]
pub fn increment_generation(mem: &mut [u64], s: usize) -> Result<Done, Refused>
    ensures { record { reply = told result; memory = mem.new } ≡ increment_out mem.old s }
{
    let d = enter_space(mem, s)?;
    spaces::next_generation(mem, d, s);
    Ok(Done::with(0))
}

/// All entries leave.
#[tactic(auto, unfolding(crate::specs::Calls::clear_out, steps::specs::Enter::on_space))]
pub fn clear(mem: &mut [u64], s: usize) -> Result<Done, Refused>
    ensures { record { reply = told result; memory = mem.new } ≡ clear_out mem.old s }
{
    let d = enter_space(mem, s)?;
    spaces::clear(mem, d, s);
    Ok(Done::with(0))
}

/// For process cleanup: all entries leave, and the space's generation goes up.
#[tactic(auto, using(steps::proofs::laws::Kept::kept_ready, steps::proofs::laws::SpaceSteps::clear_step_kept), unfolding(crate::specs::Calls::revoke_all_out, steps::specs::Enter::on_space))]
pub fn revoke_all(mem: &mut [u64], s: usize) -> Result<Done, Refused>
    ensures { record { reply = told result; memory = mem.new } ≡ revoke_all_out mem.old s }
{
    let d = enter_space(mem, s)?;
    spaces::clear(mem, d, s);
    spaces::next_generation(mem, d, s);
    Ok(Done::with(0))
}

/// The source's `clone_from`: the target takes the source's entries, whatever its own quota. The value is how many it accepted, the count
/// how many its rebuilds moved.
#[tactic(auto, unfolding(crate::specs::Calls::copy_out, steps::specs::Enter::on_space, base::specs::Choose::when))]
pub fn copy(mem: &mut [u64], target: usize, source: usize) -> Result<Done, Refused>
    ensures { record { reply = told result; memory = mem.new } ≡ copy_out mem.old target source }
{
    let d = enter_space(mem, target)?;
    if d.spaces <= source {
        return Err(Refusal::BadSpace.into());
    }
    let c = spaces::copy(mem, d, target, source);
    Ok(Done {
        value: c.accepted as u64,
        count: c.moved,
    })
}
