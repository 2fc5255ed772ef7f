// The look over a registry: document 01's rules of it, in a few passes over what it holds.
#![tactic(auto)]

ghost use Rattle.std.specs.Prelude.{◌≡◌, ◌+◌, ◌*◌, ◌<◌, ◌≤◌, leb, ltb, eqb, length, get_or, take, is_some, IfSome};
ghost use Rattle.base.specs.Below.{all};
ghost use Rattle.base.specs.Chain.{Chained};
ghost use Rattle.base.specs.Choose.{both};
ghost use Rattle.registry.specs.Words.{id_at, state_at, link_at, revoked, has_list, holders};
ghost use Rattle.registry.specs.Sound.{unregistered_id, within_test, registry_test};
ghost use Rattle.registry.specs.Counts.{Counted, count_entry, count_entries, AtMost};
ghost use Rattle.registry_look.specs.Look.{place_test, places_test, recycled_id_test};

use base::distinct::Index;
use registry::view::Registry;

// Whether a child may have this state below a parent of that state: the parent has a list, and is not revoked unless the child is.
fn child_sound(parent: u64, child: u64) -> bool
    ensures { result ≡ both (eqb (has_list parent) 1) (leb (revoked parent) (revoked child)) }
{
    parent / 2 % 2 == 1 && parent % 2 <= child % 2
}

// The rules of place k.
#[tactic(auto, unfolding(crate::specs::Look::place_test))]
fn place_sound(registry: &Registry<'_>, next: u64, k: usize) -> bool
    requires { k < registry.now.places }
    ensures { result ≡ place_test registry.now.places next registry.now.words.now k }
{
    let link = registry.words[3 * registry.places + k] as usize;
    (1..next).contains(&registry.words[k])
        && link <= k
        && (link == 0
            || child_sound(
                registry.words[2 * registry.places + (link - 1)],
                registry.words[2 * registry.places + k],
            ))
}

// The rules of each place in use, and that no list holds over 1,024, in counters of children that are 0 yet.
fn each_place_sound(registry: &Registry<'_>, next: u64, counts: &mut [u16]) -> bool
    requires count_in_bounds { registry.now.count ≤ length counts.old }
    requires counted { Counted (link_at registry.now.places registry.now.words.now) 0 counts.old }
    ensures { result ≡ places_test registry.now.places registry.now.count next registry.now.words.now }
{
    for k in 0..registry.count {
        if !place_sound(registry, next, k) {
            return false;
        }
        let link = registry.words[3 * registry.places + k] as usize;
        if link == 0 {
            continue;
        }
        let p = link - 1;
        let count = counts[p];
        if 1024 <= count {
            return false;
        }
        counts[p] = count + 1;
    }
    true
}

// The rules of the places in use and of their lists, with N counters.
fn places_sound_in<const N: usize>(registry: &Registry<'_>, next: u64) -> bool
    requires { (registry.now.count ≤ N) × (N ≤ 4096) }
    ensures { result ≡ places_test registry.now.places registry.now.count next registry.now.words.now }
{
    let mut counts = [0u16; N];
    each_place_sound(registry, next, &mut counts)
}

// The rules of the places in use and of their lists. Few places have few counters, since to clear them all takes longer than to go along
// few places.
fn places_sound(registry: &Registry<'_>, next: u64) -> bool
    ensures { result ≡ places_test registry.now.places registry.now.count next registry.now.words.now }
{
    if registry.count <= 512 {
        places_sound_in::<512>(registry, next)
    } else {
        places_sound_in::<4096>(registry, next)
    }
}

// Whether none of these ids is this one.
fn unregistered(ids: &Index<'_>, id: u64) -> bool
    ensures { result ≡ unregistered_id (length ids.now.words.now) (id_at ids.now.words.now) id }
{
    ids.place_of(id).is_none()
}

// The rules of one recycled id, behind another or behind 0.
fn recycled_id_sound(ids: &Index<'_>, next: u64, last: u64, id: u64) -> bool
    ensures { result
        ≡ both (ltb last id) (both (ltb id next) (unregistered_id (length ids.now.words.now) (id_at ids.now.words.now) id)) }
{
    last < id && id < next && unregistered(ids, id)
}

// The rules of each of m recycled ids, by the index of the registered ones.
fn recycled_sound(registry: &Registry<'_>, m: usize, next: u64, ids: &Index<'_>) -> bool
    requires m_le_places { m ≤ registry.now.places + 1 }
    requires of_these { ids.now.words.now ≡ take (length ids.now.words.now) registry.now.words.now }
    ensures { result ≡ all m (recycled_id_test registry.now.places (length ids.now.words.now) next registry.now.words.now) }
{
    let mut last = 0;
    for j in 0..m {
        let id = registry.words[4 * registry.places + j];
        if !recycled_id_sound(ids, next, last, id) {
            return false;
        }
        last = id;
    }
    true
}

// The rules of a registry with m recycled ids, but for the holders'. If they hold, the index of the registered ids, made in
// heads and prevs, which index nothing yet.
pub fn registry_sound<'a>(
    registry: &Registry<'a>,
    m: usize,
    next: u64,
    heads: &'a mut [u16],
    prevs: &'a mut [u16],
) -> Option<Index<'a>>
    requires m_le_places { m ≤ registry.now.places + 1 }
    requires chained { Chained (take registry.now.count registry.now.words.now) heads.old prevs.old 0 }
    ensures value { is_some result ≡ registry_test registry.now.places registry.now.count m next registry.now.words.now }
    ensures indexed { IfSome result (λ ids. ids.words.now ≡ take registry.now.count registry.now.words.now) }
{
    if !places_sound(registry, next) {
        return None;
    }
    let ids = Index::of(&registry.words[..registry.count], heads, prevs)?;
    if recycled_sound(registry, m, next, &ids) {
        Some(ids)
    } else {
        None
    }
}

// Whether the holders at place k are at most its count.
fn within(registry: &Registry<'_>, counts: &[u16], k: usize) -> bool
    requires { (k < registry.now.places) × (k < length counts.now) }
    ensures { result ≡ leb (holders (state_at registry.now.places registry.now.words.now k)) (get_or counts.now k 0) }
{
    registry.words[2 * registry.places + k] / 4 <= counts[k] as u64
}

// Whether the holders at each place in use are at most its count.
pub fn holders_within(registry: &Registry<'_>, counts: &[u16]) -> bool
    requires { registry.now.count ≤ length counts.now }
    ensures { result ≡ within_test registry.now.count (state_at registry.now.places registry.now.words.now) (λ k. get_or counts.now k 0) }
{
    for k in 0..registry.count {
        if !within(registry, counts, k) {
            return false;
        }
    }
    true
}

// Counts an entry of an id at the id's place, by the index of the ids, if it is registered.
fn count_entry(ids: &Index<'_>, counts: &mut [u16], id: u64)
    requires ids_in_bounds { length ids.now.words.now ≤ length counts.old }
    requires at_most { AtMost 65534 counts.old }
    ensures { counts.new ≡ count_entry ids.now.words.now id counts.old }
{
    if let Some(k) = ids.place_of(id) {
        counts[k] += 1;
    }
}

// Counts an entry of each of these ids.
pub fn count_entries(ids: &Index<'_>, entries: &[u64], counts: &mut [u16])
    requires ids_in_bounds { (length ids.now.words.now ≤ length counts.old) × (length entries.now ≤ 512) }
    requires at_most { AtMost 65023 counts.old }
    ensures { counts.new
        ≡ count_entries ids.now.words.now entries.now (length entries.now) counts.old }
{
    for id in entries {
        count_entry(ids, counts, *id);
    }
}
