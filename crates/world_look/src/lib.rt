// The look over the memory that every call takes first: whether it is sound, by document 01's rules.
#![tactic(auto)]

ghost use Rattle.std.specs.Prelude.{◌≡◌, true, ◌+◌, ◌*◌, ◌^◌, ◌<◌, ◌≤◌, length};
ghost use Rattle.registry.specs.Counts.{AtMost};
ghost use Rattle.space.specs.Sound.{space_test};
ghost use Rattle.space.specs.Words.{table_of, slot_words};
ghost use Rattle.world_look.specs.Look.{count_slots, live_below, live_ids, Looked};
ghost use Rattle.world.specs.Regions.{space, view};
ghost use Rattle.world.specs.Numbers.{registered_of, InRange};
ghost use Rattle.world.specs.Sound.{registered_ids, counts_test, head_test, spaces_test, holdings_test, logged_test, queues_test, sound_test};
ghost use Rattle.world.specs.SoundLaws.{Headed};

use base::distinct::Index;
use registry::view::Registry;
use registry_look::{count_entries, holders_within, registry_sound};
use world::Numbers;
use world::head::{LOGGED, NEXT, RECYCLED, REGISTERED, in_range, numbers};
use world::regions::{length_for, queue_at};

// The counts and the next id, in their ranges.
#[tactic(auto, unfolding(world::specs::Sound::counts_test))]
fn counts_fit(mem: &[u64], d: Numbers) -> bool
    requires { InRange d × (16 ≤ length mem.now) }
    ensures { result ≡ counts_test d mem.now }
{
    mem[REGISTERED] as usize <= d.places
        && mem[LOGGED] as usize <= d.pairs
        && (1..=0x1_0000_0000_0000).contains(&mem[NEXT])
        && mem[RECYCLED] as usize <= d.places + 1
}

// The head's words: the numbers are in range, and the memory is long enough for them.
#[tactic(auto, using(crate::proofs::Looking::head_laws), unfolding(world::specs::Sound::head_test))]
fn head_sound(mem: &[u64], d: Numbers) -> bool
    requires { 16 ≤ length mem.now }
    ensures { result ≡ head_test d mem.now }
{
    in_range(d) && length_for(d) <= mem.len() && counts_fit(mem, d)
}

// Writes the ids of the live slots one after the other, and answers how many they are. Every slot's id is written, over the one before
// it unless that was live: a branch by the kind, which follows no pattern, would be mispredicted every other time.
fn live_ids(words: &[u64], slots: usize, ids: &mut [u64; 512]) -> usize
    requires { (slots ≤ 512) × (4 * slots ≤ length words.now) }
    ensures value { (result ≡ live_below words.now slots) × (result ≤ slots) }
    ensures ids_after { ids.new ≡ live_ids words.now slots ids.old }
{
    let mut n = 0;
    for i in 0..slots {
        ids[n] = table::entry_at(words, i).capability.id();
        n += table_look::one_of(words, i, table::Kind::Full as u64);
    }
    n
}

// Counts the entries of a space, at the places of their ids.
fn count_space(sp: &[u64], ids: &Index<'_>, counts: &mut [u16])
    requires sp_bound { ((table_of sp.now).slots ≤ 512) × (8 + 4 * (table_of sp.now).slots ≤ length sp.now) }
    requires ids_in_bounds { length ids.now.words.now ≤ length counts.old }
    requires at_most { AtMost 65023 counts.old }
    ensures { counts.new
        ≡ count_slots ids.now.words.now (slot_words sp.now) (table_of sp.now).slots counts.old }
{
    let mut entries = [0u64; 512];
    let n = live_ids(&sp[space::TABLE..], sp[space::SLOTS] as usize, &mut entries);
    count_entries(ids, &entries[..n], counts);
}

// Whether space s is sound. If so, its entries are counted.
fn space_sound(mem: &[u64], d: Numbers, s: usize, ids: &Index<'_>, counts: &mut [u16]) -> bool
    requires headed { Headed d mem.now × (s < d.spaces) }
    requires looked { Looked d mem.now ids.now.words.now s counts.old }
    ensures value { result ≡ space_test d.most (view d (space s) mem.now) }
    ensures looked_2 { result ≡ true → Looked d mem.now ids.now.words.now (s + 1) counts.new }
{
    let sp = &mem[d.space(s)];
    if !space::is_sound(sp, d.most) {
        return false;
    }
    count_space(sp, ids, counts);
    true
}

// Whether each space is sound. If so, the spaces that have an entry of it are counted for each id.
fn spaces_sound(mem: &[u64], d: Numbers, ids: &Index<'_>, counts: &mut [u16]) -> bool
    requires headed { Headed d mem.now }
    requires looked { Looked d mem.now ids.now.words.now 0 counts.old }
    ensures value { result ≡ spaces_test d mem.now }
    ensures looked_2 { result ≡ true → Looked d mem.now ids.now.words.now d.spaces counts.new }
{
    for s in 0..d.spaces {
        if !space_sound(mem, d, s, ids, counts) {
            return false;
        }
    }
    true
}

// The ids, then the spaces, whose entries are counted by the index of the ids, then the holders: an index of N places in H buckets, and
// as many counters as places.
fn holdings_by<const H: usize, const N: usize>(mem: &[u64], d: Numbers) -> bool
    requires sizes { (0 < H) × (H ≤ 2 ^ 32) × (N < 2 ^ 16) }
    requires headed { Headed d mem.now × (registered_of mem.now ≤ N) }
    ensures { result ≡ holdings_test d mem.now }
{
    let mut heads = [0u16; H];
    let mut prevs = [0u16; N];
    let mut counts = [0u16; N];
    let registry = Registry {
        words: &mem[d.registry()],
        places: d.places,
        count: mem[REGISTERED] as usize,
    };
    let indexed = registry_sound(
        &registry,
        mem[RECYCLED] as usize,
        mem[NEXT],
        &mut heads,
        &mut prevs,
    );
    let Some(ids) = indexed else { return false };
    spaces_sound(mem, d, &ids, &mut counts) && holders_within(&registry, &counts)
}

// The ids, the spaces and the holders. Few ids have a small index, since to clear the large one takes longer than to look at them.
fn holdings_sound(mem: &[u64], d: Numbers) -> bool
    requires { Headed d mem.now }
    ensures { result ≡ holdings_test d mem.now }
{
    if mem[REGISTERED] <= 512 {
        return holdings_by::<2048, 512>(mem, d);
    }
    holdings_by::<65536, 4096>(mem, d)
}

fn log_sound(mem: &[u64], d: Numbers) -> bool
    requires { Headed d mem.now }
    ensures { result ≡ logged_test d mem.now }
{
    revocation::look::log_sound(&mem[d.log()], mem[LOGGED] as usize)
}

fn queues_sound(mem: &[u64], d: Numbers) -> bool
    requires { Headed d mem.now }
    ensures { result ≡ queues_test d mem.now }
{
    let start = queue_at(d, 0);
    let end = length_for(d);
    revocation::look::queues_sound(&mem[start..end], d.queues)
}

// Whether the memory keeps every rule: the head's first, by which all else is read.
#[tactic(auto, using(crate::proofs::Looking::look_laws), unfolding(world::specs::Sound::sound_test))]
pub fn is_sound(mem: &[u64]) -> bool
    ensures { result ≡ sound_test mem.now }
{
    if mem.len() < 16 {
        return false;
    }
    let d = numbers(mem);
    head_sound(mem, d) && holdings_sound(mem, d) && log_sound(mem, d) && queues_sound(mem, d)
}
