// What a space says of itself: its quota, its generation, its slots and entries, its counted lookups. `all_facts` asks for everything at
// once; each call answers its own part of it.
ghost use Rattle.std.specs.Prelude.{◌≡◌};
ghost use Rattle.steps.specs.Replies.{told};
ghost use Rattle.space_reads.specs.Calls.{facts_out, used_out, quota_out, capacity_out, generation_out, stats_out};
ghost use Rattle.space_reads.specs.Replies.{told_facts, told_stats};

use super::SpaceStats;
use answers::Refusal;
use space_steps::spaces::facts;
use steps::enter::enter_space;
use steps::{Done, Facts, Refused};

// All that a space says.
#[tactic(auto, unfolding(crate::specs::Calls::facts_out, steps::specs::Enter::on_space))]
fn all_facts(mem: &[u64], s: usize) -> Result<Facts, Refusal>
    ensures { told_facts result ≡ facts_out mem.now s }
{
    let d = enter_space(mem, s)?;
    Ok(facts(mem, d, s))
}

/// The entries that the space holds.
pub fn used(mem: &[u64], s: usize) -> Result<Done, Refused>
    ensures { told result ≡ used_out mem.now s }
{
    let facts = all_facts(mem, s)?;
    Ok(Done::with(facts.used as u64))
}

/// The entries that inserting may bring the space to.
pub fn quota(mem: &[u64], s: usize) -> Result<Done, Refused>
    ensures { told result ≡ quota_out mem.now s }
{
    let facts = all_facts(mem, s)?;
    Ok(Done::with(facts.quota as u64))
}

/// Slots allocated by the table.
pub fn table_capacity(mem: &[u64], s: usize) -> Result<Done, Refused>
    ensures { told result ≡ capacity_out mem.now s }
{
    let facts = all_facts(mem, s)?;
    Ok(Done::with(facts.slots as u64))
}

/// The generation that the space gives the tokens it makes.
pub fn generation(mem: &[u64], s: usize) -> Result<Done, Refused>
    ensures { told result ≡ generation_out mem.now s }
{
    let facts = all_facts(mem, s)?;
    Ok(Done::with(facts.generation as u64))
}

/// Lookups that found the capability, those that did not, and the entries that there are.
pub fn stats(mem: &[u64], s: usize) -> Result<SpaceStats, Refusal>
    ensures { told_stats result ≡ stats_out mem.now s }
{
    let facts = all_facts(mem, s)?;
    Ok(SpaceStats {
        hits: facts.hits,
        misses: facts.misses,
        total_caps: facts.used as u64,
    })
}
