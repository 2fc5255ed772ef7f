// One space of the world, lent to the functions of a space; where entries come or go, their holders counted; and the count of its strays.
ghost use Rattle.std.specs.Prelude.{◌≡◌, ◌<◌, ◌≤◌, length, take};
ghost use Rattle.answers.specs.Answer.{answer_of};
ghost use Rattle.registry.specs.Children as derivation;
ghost use Rattle.space.specs.Change.{moved_of, insert_out, removed_token, cleared};
ghost use Rattle.space.specs.Lookup.{looked_up, got_entry};
ghost use Rattle.space.specs.Words.{table_of, slot_words};
ghost use Rattle.table.specs.Copy.{nth_of};
ghost use Rattle.table.specs.Insert.{live_entries};
ghost use Rattle.steps.specs.Ready.{Ready};
ghost use Rattle.steps.specs.Replies.{told};
ghost use Rattle.space.specs.Copy.{copied_table, copied_space};
ghost use Rattle.space.specs.Ids.{entry_ids};
ghost use Rattle.world.specs.Numbers.{registered_of};
ghost use Rattle.world.specs.Regions.{space, registry, view, on_region};
ghost use Rattle.steps.specs.Steps.{space_of, facts_of, lookup_step, next_step, new_entry, insert_step, insert_reply, remove_step, clear_step, copy_step, copied_of};

use answers::Refusal;
use space::{LookedUp, Space};
use steps::holders::{hold, hold_all, release, release_all};
use steps::{Copied, Done, Facts, Refused};
use table::CapabilityEntry;
use token::{CapabilityToken, Rights};
use world::Numbers;
use world::head::REGISTERED;

// Space s, to be read.
fn read<'a>(mem: &'a [u64], d: Numbers, s: usize) -> Space<'a>
    requires { Ready d mem.now × (s < d.spaces) }
    ensures { result.words.now ≡ space_of d s mem.now }
{
    Space {
        words: &mem[d.space(s)],
    }
}

#[tactic(auto, unfolding(steps::specs::Steps::facts_of))]
pub fn facts(mem: &[u64], d: Numbers, s: usize) -> Facts
    requires { Ready d mem.now × (s < d.spaces) }
    ensures { result ≡ facts_of (space_of d s mem.now) }
{
    let sp = read(mem, d, s);
    Facts {
        quota: sp.quota(),
        generation: sp.generation(),
        hits: sp.hits(),
        misses: sp.misses(),
        slots: sp.table_capacity(),
        used: sp.used(),
    }
}

pub fn lookup(mem: &mut [u64], d: Numbers, s: usize, token: CapabilityToken) -> LookedUp
    requires { Ready d mem.old × (s < d.spaces) }
    ensures mem_after { mem.new ≡ lookup_step d s token.0 mem.old }
    ensures value { result ≡ looked_up (space_of d s mem.old) token.0 }
{
    space::lookup(&mut mem[d.space(s)], token)
}

pub fn get_entry(mem: &[u64], d: Numbers, s: usize, id: u64) -> LookedUp
    requires { Ready d mem.now × (s < d.spaces) }
    ensures { result ≡ got_entry (space_of d s mem.now) id }
{
    read(mem, d, s).get_entry(id)
}

pub fn nth_entry(mem: &[u64], d: Numbers, s: usize, n: usize) -> Option<CapabilityEntry>
    requires { Ready d mem.now × (s < d.spaces) }
    ensures { result
        ≡ nth_of (live_entries (slot_words (space_of d s mem.now)) 0 (table_of (space_of d s mem.now)).slots) n }
{
    read(mem, d, s).nth_entry(n)
}

pub fn next_generation(mem: &mut [u64], d: Numbers, s: usize)
    requires { Ready d mem.old × (s < d.spaces) }
    ensures { mem.new ≡ next_step d s mem.old }
{
    space::next_generation(&mut mem[d.space(s)]);
}

// The entry into the space; the answer is how many its rebuild moved.
fn insert_entry(
    mem: &mut [u64],
    d: Numbers,
    s: usize,
    entry: CapabilityEntry,
) -> Result<usize, Refusal>
    requires { Ready d mem.old × (s < d.spaces) }
    ensures mem_after { mem.new ≡ on_region d (space s) (λ sp. (insert_out sp entry).words) mem.old }
    ensures answer_value { (answer_of result ≡ (insert_out (space_of d s mem.old) entry).answer)
        × (moved_of result ≡ (insert_out (space_of d s mem.old) entry).moved) }
{
    space::insert(&mut mem[d.space(s)], entry)
}

/// A new entry. If it is accepted its holder is counted, and the value answered; the count is how many entries its rebuild moved.
#[tactic(auto, using(steps::proofs::ChangingEntries::accepted_reply, steps::proofs::ChangingEntries::refused_reply), unfolding(steps::specs::Steps::insert_step, space::specs::Change::insert_out, base::specs::Choose::when))]
pub fn insert(
    mem: &mut [u64],
    d: Numbers,
    s: usize,
    token: CapabilityToken,
    object: u64,
    rights: Rights,
    value: u64,
) -> Result<Done, Refused>
    requires { Ready d mem.old × (s < d.spaces) }
    ensures mem_after { mem.new ≡ insert_step d s (new_entry token.0 object rights.0) mem.old }
    ensures value { told result ≡ insert_reply value (insert_out (space_of d s mem.old) (new_entry token.0 object rights.0)) }
{
    let n = mem[REGISTERED] as usize;
    let entry = CapabilityEntry {
        capability: token,
        object,
        rights,
        uses: 0,
    };
    let count = insert_entry(mem, d, s, entry)?;
    hold(mem, d, n, token.id());
    Ok(Done { value, count })
}

// The entry of exactly the token out of the space.
fn remove_entry(mem: &mut [u64], d: Numbers, s: usize, token: CapabilityToken) -> LookedUp
    requires { Ready d mem.old × (s < d.spaces) }
    ensures mem_after { mem.new ≡ on_region d (space s) (λ sp. removed_token sp token.0) mem.old }
    ensures value { result ≡ looked_up (space_of d s mem.old) token.0 }
{
    space::remove(&mut mem[d.space(s)], token)
}

// The entry that leaves, if exactly the token is there, has its holder counted off.
pub fn remove(mem: &mut [u64], d: Numbers, s: usize, token: CapabilityToken) -> LookedUp
    requires { Ready d mem.old × (s < d.spaces) }
    ensures mem_after { mem.new ≡ remove_step d s token.0 mem.old }
    ensures value { result ≡ looked_up (space_of d s mem.old) token.0 }
{
    let n = mem[REGISTERED] as usize;
    let r = remove_entry(mem, d, s, token);
    if r.got.is_some() {
        release(mem, d, n, token.id());
    }
    r
}

// The ids of the entries of space s, to the front of `ids`.
fn ids_of(mem: &[u64], d: Numbers, s: usize, ids: &mut [u64]) -> usize
    requires { Ready d mem.now × (s < d.spaces) × (512 ≤ length ids.old) }
    ensures { (take result ids.new ≡ entry_ids (space_of d s mem.now)) × (result ≤ 512) × (result ≤ length ids.new) }
{
    read(mem, d, s).entry_ids(ids)
}

// How many entries of space s are strays: their ids are not registered.
pub fn strays(mem: &[u64], d: Numbers, s: usize) -> usize
    requires { Ready d mem.now × (s < d.spaces) }
    ensures { result
        ≡ derivation.strays (registered_of mem.now) (view d registry mem.now)
        (entry_ids (space_of d s mem.now)) }
{
    let mut ids = [0u64; 512];
    let count = ids_of(mem, d, s, &mut ids);
    registry::children::strays(&mem[d.registry()], mem[REGISTERED] as usize, &ids[..count])
}

// Every entry out of the space.
fn clear_entries(mem: &mut [u64], d: Numbers, s: usize)
    requires { Ready d mem.old × (s < d.spaces) }
    ensures { mem.new ≡ on_region d (space s) cleared mem.old }
{
    space::clear(&mut mem[d.space(s)]);
}

// Every entry leaves, and has its holder counted off.
pub fn clear(mem: &mut [u64], d: Numbers, s: usize)
    requires { Ready d mem.old × (s < d.spaces) }
    ensures { mem.new ≡ clear_step d s mem.old }
{
    let n = mem[REGISTERED] as usize;
    let mut ids = [0u64; 512];
    let count = ids_of(mem, d, s, &mut ids);
    clear_entries(mem, d, s);
    release_all(mem, d, n, &ids[..count]);
}

// The target's slots made anew from the source's entries, with the source's generation.
fn copy_entries(mem: &mut [u64], d: Numbers, target: usize, source: usize) -> usize
    requires { Ready d mem.old × (target < d.spaces) × (source < d.spaces) }
    ensures mem_after { mem.new ≡ on_region d (space target) (copied_space (space_of d source mem.old)) mem.old }
    ensures value { result ≡ (copied_table (space_of d source mem.old) (space_of d target mem.old)).moved }
{
    let mut scratch = [0u64; 2048];
    let from = read(mem, d, source);
    let count = from.gather(&mut scratch);
    let generation = from.generation();
    space::replace(&mut mem[d.space(target)], &scratch, count, generation)
}

// The source's entries are held before the target's old ones leave.
pub fn copy(mem: &mut [u64], d: Numbers, target: usize, source: usize) -> Copied
    requires { Ready d mem.old × (target < d.spaces) × (source < d.spaces) }
    ensures mem_after { mem.new ≡ copy_step d target source mem.old }
    ensures value { result ≡ copied_of d target source mem.old }
{
    let n = mem[REGISTERED] as usize;
    let mut came = [0u64; 512];
    let mut left = [0u64; 512];
    let accepted = ids_of(mem, d, source, &mut came);
    let gone = ids_of(mem, d, target, &mut left);
    let moved = copy_entries(mem, d, target, source);
    hold_all(mem, d, n, &came[..accepted]);
    release_all(mem, d, n, &left[..gone]);
    Copied { moved, accepted }
}
