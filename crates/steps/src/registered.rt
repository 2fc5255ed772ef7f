// The registry's ids in the world's memory: read, registered, unregistered and recycled; what is read of derivation; and the statistics.
ghost use Rattle.std.specs.Prelude.{◌≡◌, ◌*◌, ◌<◌, ◌≤◌, length, slice_index};
ghost use Rattle.base.specs.Written.{written};
ghost use Rattle.registry.specs.Children.{child_ids};
ghost use Rattle.registry.specs.Children as derivation;
ghost use Rattle.world.specs.Numbers.{registered_of, recycled_of};
ghost use Rattle.world.specs.Regions.{registry, view};
ghost use Rattle.world.specs.Sound.{ids, states, links};
ghost use Rattle.steps.specs.Ready.{Ready};
ghost use Rattle.steps.specs.Steps.{place_in, objects, register_step, list_step, unregister_step, recycle_step, collect_step, children_of, add_step};

use registry::view::Registry;
use world::Numbers;
use world::head::{RECYCLED, REGISTERED};
use world::regions::registry_at;

// The registry, to be read.
pub fn registry_of(mem: &[u64], d: Numbers) -> Registry<'_>
    requires { Ready d mem.now }
    ensures { (result.words.now ≡ view d registry mem.now) × (result.places ≡ d.places) × (result.count ≡ registered_of mem.now) }
{
    Registry {
        words: &mem[d.registry()],
        places: d.places,
        count: mem[REGISTERED] as usize,
    }
}

// The place of an id, or how many are registered.
pub fn place_of(mem: &[u64], d: Numbers, id: u64) -> usize
    requires { Ready d mem.now }
    ensures { (result ≡ place_in d mem.now id) × (result ≤ registered_of mem.now) }
{
    registry::holders::place_of(&mem[d.registry()], mem[REGISTERED] as usize, id)
}

// Word i of the registry.
fn word_at(mem: &[u64], d: Numbers, i: usize) -> u64
    requires { Ready d mem.now × (i ≤ 5 * d.places) }
    ensures { result ≡ slice_index (view d registry mem.now) i }
{
    mem[registry_at(d) + i]
}

// The words of place k, one of each column.
pub fn id_at(mem: &[u64], d: Numbers, k: usize) -> u64
    requires { Ready d mem.now × (k < d.places) }
    ensures { result ≡ ids d mem.now k }
{
    word_at(mem, d, k)
}

pub fn object_at(mem: &[u64], d: Numbers, k: usize) -> u64
    requires { Ready d mem.now × (k < d.places) }
    ensures { result ≡ objects d mem.now k }
{
    word_at(mem, d, d.places + k)
}

pub fn state_at(mem: &[u64], d: Numbers, k: usize) -> u64
    requires { Ready d mem.now × (k < d.places) }
    ensures { result ≡ states d mem.now k }
{
    word_at(mem, d, 2 * d.places + k)
}

pub fn link_at(mem: &[u64], d: Numbers, k: usize) -> u64
    requires { Ready d mem.now × (k < d.places) }
    ensures { result ≡ links d mem.now k }
{
    word_at(mem, d, 3 * d.places + k)
}

pub fn register(mem: &mut [u64], d: Numbers, id: u64, object: u64, link: u64)
    requires { Ready d mem.old × (registered_of mem.old < d.places) }
    ensures { mem.new ≡ register_step d id object link mem.old }
{
    let n = mem[REGISTERED] as usize;
    registry::registering::register(&mut mem[d.registry()], d.places, n, id, object, link);
    mem[REGISTERED] = (n + 1) as u64;
}

pub fn give_list(mem: &mut [u64], d: Numbers, p: usize)
    requires { Ready d mem.old × (p < d.places) }
    ensures { mem.new ≡ list_step d p mem.old }
{
    registry::registering::give_list(&mut mem[d.registry()], d.places, p);
}

pub fn unregister(mem: &mut [u64], d: Numbers, k: usize)
    requires { Ready d mem.old × (k < registered_of mem.old) }
    ensures { mem.new ≡ unregister_step d k mem.old }
{
    let n = mem[REGISTERED] as usize;
    registry::registering::unregister(&mut mem[d.registry()], d.places, n, k);
    mem[REGISTERED] = (n - 1) as u64;
}

pub fn recycle(mem: &mut [u64], d: Numbers, id: u64)
    requires { Ready d mem.old × (recycled_of mem.old ≤ d.places) }
    ensures { mem.new ≡ recycle_step d id mem.old }
{
    let m = mem[RECYCLED] as usize;
    registry::ids::recycle(&mut mem[d.registry()], d.places, m, id);
    mem[RECYCLED] = (m + 1) as u64;
}

// The children of place p with no children and no holders leave.
pub fn collect(mem: &mut [u64], d: Numbers, p: usize)
    requires { Ready d mem.old × (p ≤ d.places) }
    ensures { mem.new ≡ collect_step d p mem.old }
{
    let n = mem[REGISTERED] as usize;
    let left = registry::registering::collect(&mut mem[d.registry()], d.places, p, n);
    mem[REGISTERED] = left as u64;
}

pub fn child_count(mem: &[u64], d: Numbers, p: usize) -> usize
    requires { Ready d mem.now × (p ≤ d.places) }
    ensures { result ≡ children_of d mem.now p }
{
    registry_of(mem, d).child_count(p)
}

// The ids of the children of place p, in list order, to the front of `area`.
pub fn list_children(mem: &[u64], d: Numbers, p: usize, area: &mut [u64])
    requires { Ready d mem.now × (p ≤ d.places) × (children_of d mem.now p ≤ length area.old) }
    ensures { area.new
        ≡ written (child_ids d.places p (registered_of mem.now) (view d registry mem.now)) area.old }
{
    registry_of(mem, d).list_children(p, area);
}

// How many ids have a list of children.
pub fn parents(mem: &[u64], d: Numbers) -> usize
    requires { Ready d mem.now }
    ensures { result ≡ derivation.parents d.places (registered_of mem.now) (view d registry mem.now) }
{
    registry_of(mem, d).parents()
}

// How many children stand in lists.
pub fn edges(mem: &[u64], d: Numbers) -> usize
    requires { Ready d mem.now }
    ensures { result ≡ derivation.edges d.places (registered_of mem.now) (view d registry mem.now) }
{
    registry_of(mem, d).edges()
}

// Word i of the head, the epoch or a statistic, counts k more.
pub fn add(mem: &mut [u64], i: usize, k: usize)
    requires { (i < 16) × (16 ≤ length mem.old) }
    ensures { mem.new ≡ add_step i k mem.old }
{
    mem[i] = mem[i].wrapping_add(k as u64);
}
