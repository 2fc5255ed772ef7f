// The descendants of an id in the world's memory: listed, and revoked.
ghost use Rattle.std.specs.Prelude.{◌≡◌, ◌<◌, ◌≤◌, length, take};
ghost use Rattle.base.specs.Written.{written};
ghost use Rattle.registry.specs.Children.{ids_at};
ghost use Rattle.registry.specs.Descent.{descent, unrevoked_of, marked};
ghost use Rattle.registry.specs.PlaceLists.{AllBelow};
ghost use Rattle.registry.specs.Sound.{Linked};
ghost use Rattle.steps.specs.Ready.{Fits, Ready};
ghost use Rattle.world.specs.Numbers.{registered_of};
ghost use Rattle.world.specs.Regions.{registry, view, on_region};
ghost use Rattle.world.specs.Sound.{links};

use steps::registered::registry_of;
use world::Numbers;

// Place r and all places under it, breadth first, to the front of `order`. Answers how many they are.
pub fn descend(mem: &[u64], d: Numbers, r: usize, order: &mut [u16]) -> usize
    requires ready { Ready d mem.now × (r < registered_of mem.now) × (registered_of mem.now ≤ length order.old) }
    requires linked { Linked (registered_of mem.now) (links d mem.now) }
    ensures order_after { (take result order.new ≡ descent d.places (registered_of mem.now) (view d registry mem.now) r)
        × (result ≤ registered_of mem.now) }
    ensures all_below { AllBelow (registered_of mem.now) (take result order.new) }
{
    registry_of(mem, d).descend(r, order)
}

// Of the first `count` places of `order` those that are not revoked yet, to its front. Answers how many they are.
pub fn keep_unrevoked(mem: &[u64], d: Numbers, order: &mut [u16], count: usize) -> usize
    requires fits { Fits d mem.now × (count ≤ length order.old) }
    requires all_below { AllBelow d.places (take count order.old) }
    ensures order_after { take result order.new
        ≡ unrevoked_of d.places (view d registry mem.now) (take count order.old) }
    ensures upper_bound { (result ≤ count) × AllBelow d.places (take result order.new) }
{
    registry::descent::keep_unrevoked(&mem[d.registry()], d.places, order, count)
}

// The ids at the places of `order`, to the front of `ids`.
pub fn ids_at(mem: &[u64], d: Numbers, order: &[u16], ids: &mut [u64])
    requires fits { Fits d mem.now × (length order.now ≤ length ids.old) }
    requires all_below { AllBelow d.places order.now }
    ensures { ids.new ≡ written (ids_at (view d registry mem.now) order.now) ids.old }
{
    registry::descent::ids_at(&mem[d.registry()], order, ids);
}

// The places of `order` are revoked, with generation up by one.
pub fn mark(mem: &mut [u64], d: Numbers, order: &[u16])
    requires fits { Fits d mem.old }
    requires all_below { AllBelow d.places order.now }
    ensures { mem.new ≡ on_region d registry (marked d.places order.now) mem.old }
{
    registry::descent::mark(&mut mem[d.registry()], d.places, order);
}
