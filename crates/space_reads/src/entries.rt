// Finding entries: by the whole token, counted; by the id; by their place in slot order.
ghost use Rattle.std.specs.Prelude.{◌≡◌};
ghost use Rattle.steps.specs.Replies.{told};
ghost use Rattle.space_reads.specs.Calls.{lookup_out, lookup_entry_out, check_rights_out, get_entry_out, nth_entry_out};
ghost use Rattle.space_reads.specs.Replies.{told_entry};

use super::FoundEntry;
use answers::Refusal;
use space_steps::spaces;
use steps::enter::enter_space;
use steps::{Done, Refused};
use token::{CapabilityToken, Rights};

/// Looks up exactly the token, counted: the value is its rights, the count the slots visited. 8 where the space does not hold it.
#[tactic(auto, unfolding(crate::specs::Calls::lookup_out, steps::specs::Enter::on_space))]
pub fn lookup(mem: &mut [u64], s: usize, token: CapabilityToken) -> Result<Done, Refused>
    ensures { record { reply = told result; memory = mem.new } ≡ lookup_out mem.old s token.0 }
{
    let d = enter_space(mem, s)?;
    let l = spaces::lookup(mem, d, s, token);
    let entry = l.got.ok_or(Refused::after(Refusal::NotFound, l.visits))?;
    Ok(Done {
        value: entry.rights.0 as u64,
        count: l.visits,
    })
}

/// The same with the whole entry, as it was before this use.
#[tactic(auto, unfolding(crate::specs::Calls::lookup_entry_out, steps::specs::Enter::on_space))]
pub fn lookup_entry(
    mem: &mut [u64],
    s: usize,
    token: CapabilityToken,
) -> Result<FoundEntry, Refused>
    ensures { record { reply = told_entry result; memory = mem.new } ≡ lookup_entry_out mem.old s token.0 }
{
    let d = enter_space(mem, s)?;
    let l = spaces::lookup(mem, d, s, token);
    let entry = l.got.ok_or(Refused::after(Refusal::NotFound, l.visits))?;
    Ok(FoundEntry {
        entry,
        visits: l.visits,
    })
}

/// Whether the space holds the token with these rights, 1 or 0: a lookup, counted as any.
#[tactic(auto, unfolding(crate::specs::Calls::check_rights_out, steps::specs::Enter::on_space))]
pub fn check_rights(
    mem: &mut [u64],
    s: usize,
    token: CapabilityToken,
    required: Rights,
) -> Result<Done, Refused>
    ensures { record { reply = told result; memory = mem.new } ≡ check_rights_out mem.old s token.0 required.0 }
{
    let d = enter_space(mem, s)?;
    let l = spaces::lookup(mem, d, s, token);
    let held = match l.got {
        Some(entry) => entry.rights.contains(required),
        None => false,
    };
    Ok(Done {
        value: held as u64,
        count: l.visits,
    })
}

/// The entry of an id, of any generation, not counted. 21 for an id of more than 48 bits, 8 where the space has none.
#[tactic(auto, unfolding(crate::specs::Calls::get_entry_out, steps::specs::Enter::on_space, base::specs::Choose::when))]
pub fn get_entry(mem: &[u64], s: usize, id: u64) -> Result<FoundEntry, Refused>
    ensures { told_entry result ≡ get_entry_out mem.now s id }
{
    let d = enter_space(mem, s)?;
    if 0x1_0000_0000_0000 <= id {
        return Err(Refusal::BadField.into());
    }
    let l = spaces::get_entry(mem, d, s, id);
    let entry = l.got.ok_or(Refused::after(Refusal::NotFound, l.visits))?;
    Ok(FoundEntry {
        entry,
        visits: l.visits,
    })
}

/// The n-th live entry in slot order, n from 0: one after the other, the source's `entries` and `iter_capabilities`. 8 past the last.
#[tactic(auto, unfolding(crate::specs::Calls::nth_entry_out, steps::specs::Enter::on_space))]
pub fn nth_entry(mem: &[u64], s: usize, n: usize) -> Result<FoundEntry, Refused>
    ensures { told_entry result ≡ nth_entry_out mem.now s n }
{
    let d = enter_space(mem, s)?;
    let entry = spaces::nth_entry(mem, d, s, n).ok_or(Refusal::NotFound)?;
    Ok(FoundEntry { entry, visits: 0 })
}
