// The calls of a space for a host: the memory is a slice of words that the host lends, a token its word, a set of rights its 32 bits.
// Each is the call of the same name in `space_reads` or `space_calls`, with its answer as a number.
ghost use Rattle.std.specs.Prelude.{◌≡◌};
ghost use Rattle.space_calls.specs.Calls.{insert_call_out, remove_out, increment_out, clear_out, revoke_all_out, copy_out, alloc_out, create_out, revoke_out};
ghost use Rattle.space_reads.specs.Calls.{used_out, quota_out, capacity_out, generation_out, stats_out, lookup_out, lookup_entry_out, check_rights_out, get_entry_out, nth_entry_out};
ghost use Rattle.host_replies.specs.Replies.{call_answer, told};
ghost use Rattle.host_spaces.specs.Spaces.{entry_answer, stats_answer};

use answers::Refusal;
use host_replies::CallAnswer;
use space_reads::{FoundEntry, SpaceStats};
use steps::Refused;
use token::{CapabilityToken, Rights};

// The answer's number, an entry, and the slots that the search for it visited.
#[repr(C)]
#[derive(Clone, Copy, PartialEq, Eq, Debug)]
pub struct EntryAnswer {
    pub answer: u8,
    pub token: u64,
    pub object: u64,
    pub rights: u32,
    pub uses: u64,
    pub visits: u64,
}

// The answer's number, and the statistics of a space.
#[repr(C)]
#[derive(Clone, Copy, PartialEq, Eq, Debug)]
pub struct StatsAnswer {
    pub answer: u8,
    pub hits: u64,
    pub misses: u64,
    pub total_caps: u64,
}

impl From<Result<FoundEntry, Refused>> for EntryAnswer {
    ghost use Rattle.host_spaces.specs.Spaces.{EntryAnswers};

    ghost from_gives = { EntryAnswers };

    #[tactic(auto, unfolding(crate::specs::Spaces::entry_answer))]
    fn from(outcome: Result<FoundEntry, Refused>) -> Self {
        match outcome {
            Ok(found) => EntryAnswer {
                answer: 0,
                token: found.entry.capability.0,
                object: found.entry.object,
                rights: found.entry.rights.0,
                uses: found.entry.uses,
                visits: found.visits as u64,
            },
            Err(refused) => EntryAnswer {
                answer: refused.refusal.into(),
                token: 0,
                object: 0,
                rights: 0,
                uses: 0,
                visits: refused.count as u64,
            },
        }
    }
}

impl From<Result<SpaceStats, Refusal>> for StatsAnswer {
    ghost use Rattle.host_spaces.specs.Spaces.{StatsAnswers};

    ghost from_gives = { StatsAnswers };

    #[tactic(auto, unfolding(crate::specs::Spaces::stats_answer))]
    fn from(outcome: Result<SpaceStats, Refusal>) -> Self {
        match outcome {
            Ok(stats) => StatsAnswer {
                answer: 0,
                hits: stats.hits,
                misses: stats.misses,
                total_caps: stats.total_caps,
            },
            Err(refusal) => StatsAnswer {
                answer: refusal.into(),
                hits: 0,
                misses: 0,
                total_caps: 0,
            },
        }
    }
}

// ---- what a space says of itself

#[unsafe(no_mangle)]
pub extern "C" fn stonespry_space_used(mem: &[u64], s: usize) -> CallAnswer
    ensures { result ≡ call_answer (used_out mem.now s) }
{
    space_reads::used(mem, s).into()
}

#[unsafe(no_mangle)]
pub extern "C" fn stonespry_space_quota(mem: &[u64], s: usize) -> CallAnswer
    ensures { result ≡ call_answer (quota_out mem.now s) }
{
    space_reads::quota(mem, s).into()
}

#[unsafe(no_mangle)]
pub extern "C" fn stonespry_space_table_capacity(mem: &[u64], s: usize) -> CallAnswer
    ensures { result ≡ call_answer (capacity_out mem.now s) }
{
    space_reads::table_capacity(mem, s).into()
}

#[unsafe(no_mangle)]
pub extern "C" fn stonespry_space_generation(mem: &[u64], s: usize) -> CallAnswer
    ensures { result ≡ call_answer (generation_out mem.now s) }
{
    space_reads::generation(mem, s).into()
}

#[unsafe(no_mangle)]
pub extern "C" fn stonespry_space_stats(mem: &[u64], s: usize) -> StatsAnswer
    ensures { result ≡ stats_answer (stats_out mem.now s) }
{
    space_reads::stats(mem, s).into()
}

// ---- finding entries

#[unsafe(no_mangle)]
pub extern "C" fn stonespry_space_lookup(mem: &mut [u64], s: usize, token: u64) -> CallAnswer
    ensures { record { reply = result; memory = mem.new } ≡ told call_answer (lookup_out mem.old s token) }
{
    space_reads::lookup(mem, s, CapabilityToken(token)).into()
}

#[unsafe(no_mangle)]
pub extern "C" fn stonespry_space_lookup_entry(mem: &mut [u64], s: usize, token: u64) -> EntryAnswer
    ensures { record { reply = result; memory = mem.new } ≡ told entry_answer (lookup_entry_out mem.old s token) }
{
    space_reads::lookup_entry(mem, s, CapabilityToken(token)).into()
}

#[unsafe(no_mangle)]
pub extern "C" fn stonespry_space_check_rights(
    mem: &mut [u64],
    s: usize,
    token: u64,
    required: u32,
) -> CallAnswer
    ensures { record { reply = result; memory = mem.new }
        ≡ told call_answer (check_rights_out mem.old s token required) }
{
    space_reads::check_rights(mem, s, CapabilityToken(token), Rights(required)).into()
}

#[unsafe(no_mangle)]
pub extern "C" fn stonespry_space_get_entry(mem: &[u64], s: usize, id: u64) -> EntryAnswer
    ensures { result ≡ entry_answer (get_entry_out mem.now s id) }
{
    space_reads::get_entry(mem, s, id).into()
}

#[unsafe(no_mangle)]
pub extern "C" fn stonespry_space_nth_entry(mem: &[u64], s: usize, n: usize) -> EntryAnswer
    ensures { result ≡ entry_answer (nth_entry_out mem.now s n) }
{
    space_reads::nth_entry(mem, s, n).into()
}

// ---- changing a space

#[unsafe(no_mangle)]
pub extern "C" fn stonespry_space_insert(
    mem: &mut [u64],
    s: usize,
    token: u64,
    object: u64,
    rights: u32,
) -> CallAnswer
    ensures { record { reply = result; memory = mem.new }
        ≡ told call_answer (insert_call_out mem.old s token object rights) }
{
    space_calls::insert(mem, s, CapabilityToken(token), object, Rights(rights)).into()
}

#[unsafe(no_mangle)]
pub extern "C" fn stonespry_space_remove(mem: &mut [u64], s: usize, token: u64) -> CallAnswer
    ensures { record { reply = result; memory = mem.new } ≡ told call_answer (remove_out mem.old s token) }
{
    space_calls::remove(mem, s, CapabilityToken(token)).into()
}

#[unsafe(no_mangle)]
pub extern "C" fn stonespry_space_increment_generation(mem: &mut [u64], s: usize) -> CallAnswer
    ensures { record { reply = result; memory = mem.new } ≡ told call_answer (increment_out mem.old s) }
{
    space_calls::increment_generation(mem, s).into()
}

#[unsafe(no_mangle)]
pub extern "C" fn stonespry_space_clear(mem: &mut [u64], s: usize) -> CallAnswer
    ensures { record { reply = result; memory = mem.new } ≡ told call_answer (clear_out mem.old s) }
{
    space_calls::clear(mem, s).into()
}

#[unsafe(no_mangle)]
pub extern "C" fn stonespry_space_revoke_all(mem: &mut [u64], s: usize) -> CallAnswer
    ensures { record { reply = result; memory = mem.new } ≡ told call_answer (revoke_all_out mem.old s) }
{
    space_calls::revoke_all(mem, s).into()
}

#[unsafe(no_mangle)]
pub extern "C" fn stonespry_space_copy(mem: &mut [u64], target: usize, source: usize) -> CallAnswer
    ensures { record { reply = result; memory = mem.new } ≡ told call_answer (copy_out mem.old target source) }
{
    space_calls::copy(mem, target, source).into()
}

// ---- ids

#[unsafe(no_mangle)]
pub extern "C" fn stonespry_alloc_cap_id(mem: &mut [u64]) -> CallAnswer
    ensures { record { reply = result; memory = mem.new } ≡ told call_answer (alloc_out mem.old) }
{
    space_calls::alloc_cap_id(mem).into()
}

#[unsafe(no_mangle)]
pub extern "C" fn stonespry_space_create_capability(
    mem: &mut [u64],
    s: usize,
    rights: u32,
    object: u64,
) -> CallAnswer
    ensures { record { reply = result; memory = mem.new } ≡ told call_answer (create_out mem.old s rights object) }
{
    space_calls::create_capability(mem, s, Rights(rights), object).into()
}

#[unsafe(no_mangle)]
pub extern "C" fn stonespry_space_revoke(mem: &mut [u64], s: usize, id: u64) -> CallAnswer
    ensures { record { reply = result; memory = mem.new } ≡ told call_answer (revoke_out mem.old s id) }
{
    space_calls::revoke(mem, s, id).into()
}
