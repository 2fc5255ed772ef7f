// What the manager says of itself: its statistics, the children of a capability, the derivation tree, the strays of a space.
ghost use Rattle.std.specs.Prelude.{◌≡◌};
ghost use Rattle.steps.specs.Replies.{told};
ghost use Rattle.manager_calls.specs.Calls.{told_stats, told_tree, stats_out, children_out, tree_stats_out, census_out};

use super::{ManagerStats, Tree};
use answers::Refusal;
use space_steps::spaces;
use steps::enter::{enter_space, enter_world};
use steps::{Done, Refused, registered};
use world::head::{CREATED, DELEGATED, DELETED, REVOKED};

/// The statistics of the manager.
#[tactic(auto, unfolding(crate::specs::Calls::stats_out, steps::specs::Enter::on_world))]
pub fn stats(mem: &[u64]) -> Result<ManagerStats, Refusal>
    ensures { told_stats result ≡ stats_out mem.now }
{
    enter_world(mem)?;
    Ok(ManagerStats {
        created: mem[CREATED],
        delegated: mem[DELEGATED],
        revoked: mem[REVOKED],
        deleted: mem[DELETED],
    })
}

/// The children of an id in list order, to the front of `area`; the value is how many. 21 for an id of more than 48 bits, or an area that
/// is too short for them.
#[tactic(auto, using(crate::proofs::Listing::listing), unfolding(crate::specs::Calls::children_out, steps::specs::Enter::on_world, steps::specs::Replies::into_area, base::specs::Choose::when))]
pub fn get_children(mem: &[u64], id: u64, area: &mut [u64]) -> Result<Done, Refused>
    ensures { record { reply = told result; area = area.new } ≡ children_out mem.now id area.old }
{
    let d = enter_world(mem)?;
    if 0x1_0000_0000_0000 <= id {
        return Err(Refusal::BadField.into());
    }
    let p = registered::place_of(mem, d, id);
    let count = registered::child_count(mem, d, p);
    if area.len() < count {
        return Err(Refusal::BadField.into());
    }
    registered::list_children(mem, d, p, area);
    Ok(Done::with(count as u64))
}

/// How many capabilities have a list of delegations, and how many delegations there are.
#[tactic(auto, unfolding(crate::specs::Calls::tree_stats_out, steps::specs::Enter::on_world))]
pub fn derivation_tree_stats(mem: &[u64]) -> Result<Tree, Refusal>
    ensures { told_tree result ≡ tree_stats_out mem.now }
{
    let d = enter_world(mem)?;
    Ok(Tree {
        parents: registered::parents(mem, d) as u64,
        children: registered::edges(mem, d) as u64,
    })
}

/// How many entries of a space have an id that is not registered.
#[tactic(auto, unfolding(crate::specs::Calls::census_out, steps::specs::Enter::on_space))]
pub fn census(mem: &[u64], s: usize) -> Result<Done, Refused>
    ensures { told result ≡ census_out mem.now s }
{
    let d = enter_space(mem, s)?;
    Ok(Done::with(spaces::strays(mem, d, s) as u64))
}
