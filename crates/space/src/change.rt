// What changes a space: inserting, removing, clearing, and its generation.
ghost use Rattle.std.specs.Prelude.{◌≡◌, ◌<◌};
ghost use Rattle.space.specs.Words.{quota_of, table_of, InRange, SlotOf};
ghost use Rattle.space.specs.Lookup.{is_found, search_id, looked_up};
ghost use Rattle.space.specs.Change.{inserted_table, inserted, insert_out, answered, removed, removed_token, cleared, next_generation};

use super::LookedUp;
use super::view::Space;
use super::words::{TABLE, put_generation, put_table, table_of};
use answers::Refusal;
use table::{CapTable, CapabilityEntry};
use token::CapabilityToken;

// Whether an entry has the id.
fn holds_id(space: &Space<'_>, id: u64) -> bool
    ensures { result ≡ is_found (search_id space.now.words.now id).found }
{
    space.search_id(id).found.is_some()
}

#[tactic(auto, using(crate::proofs::CodeChange::change_laws))]
fn accept(sp: &mut [u64], entry: CapabilityEntry) -> usize
    requires { InRange sp.old × ((table_of sp.old).full < quota_of sp.old) }
    ensures sp_after { sp.new ≡ inserted sp.old entry }
    ensures value { result ≡ (inserted_table sp.old entry).moved }
{
    let t = table_of(sp);
    let s = table::insert_new(&mut sp[TABLE..], t, entry);
    put_table(sp, s.table);
    s.moved
}

// Insert an entry: 11 at or over the quota, then 7 for an id that is already there. The answer is how many entries a rebuild moved.
pub fn insert(sp: &mut [u64], entry: CapabilityEntry) -> Result<usize, Refusal>
    requires { InRange sp.old }
    ensures { answered result sp.new ≡ insert_out sp.old entry }
{
    let space = Space { words: sp };
    if space.quota() <= space.used() {
        return Err(Refusal::SpaceQuota);
    }
    if holds_id(&space, entry.capability.id()) {
        return Err(Refusal::AlreadyExists);
    }
    Ok(accept(sp, entry))
}

// The entry of slot i leaves.
fn remove_slot(sp: &mut [u64], i: usize)
    requires { SlotOf sp.old i }
    ensures { sp.new ≡ removed sp.old i }
{
    let t = table_of(sp);
    let s = table::remove_at(&mut sp[TABLE..], t, i);
    put_table(sp, s.table);
}

// Only exactly this token removes its entry, which is the answer; a stale one leaves the live capability alone.
pub fn remove(sp: &mut [u64], token: CapabilityToken) -> LookedUp
    requires { InRange sp.old }
    ensures sp_after { sp.new ≡ removed_token sp.old token.0 }
    ensures value { result ≡ looked_up sp.old token.0 }
{
    let space = Space { words: sp };
    let s = space.exact(token);
    let answer = space.entry_of(s);
    if let Some(i) = s.found {
        remove_slot(sp, i);
    }
    answer
}

#[tactic(auto, unfolding(crate::specs::Change::cleared))]
pub fn clear(sp: &mut [u64])
    requires { InRange sp.old }
    ensures { sp.new ≡ cleared sp.old }
{
    put_table(sp, CapTable::EMPTY);
}

#[tactic(auto, unfolding(crate::specs::Change::next_generation))]
pub fn next_generation(sp: &mut [u64])
    requires { InRange sp.old }
    ensures { sp.new ≡ next_generation sp.old }
{
    let next = Space { words: sp }.generation().wrapping_add(1);
    put_generation(sp, next);
}
