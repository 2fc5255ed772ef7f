// Registering an id, unregistering it, and the collection of children with no children and no holders. manager.rs's `registry.insert` and
// `registry.remove`, and `collect_unheld_delegations`; revocation.rs's `record_derivation`, `cleanup_capability` and `prune_children`.
ghost use Rattle.std.specs.Prelude.{◌≡◌, ◌+◌, ◌*◌, ◌<◌, ◌≤◌, length};
ghost use Rattle.registry.specs.Registering.{registered, list_given, links_mended, unregistered, has_child, unneeded, collected};
ghost use Rattle.registry.specs.Registering as spec;

use crate::view::Registry;

// Registers an id behind the n registered ones; its link names its parent's place plus one, or is 0.
pub fn register(rg: &mut [u64], places: usize, n: usize, id: u64, object: u64, link: u64)
    requires { (n < places) × (places ≤ 4095) × (5 * places + 1 ≤ length rg.old) }
    ensures { rg.new ≡ registered places n id object link rg.old }
{
    rg[n] = id;
    rg[places + n] = object;
    rg[2 * places + n] = 0;
    rg[3 * places + n] = link;
}

// Place p has a list of children from now on.
pub fn give_list(rg: &mut [u64], places: usize, p: usize)
    requires { (p < places) × (places ≤ 4095) × (5 * places + 1 ≤ length rg.old) }
    ensures { rg.new ≡ list_given places p rg.old }
{
    let at = 2 * places + p;
    if rg[at] / 2 % 2 == 1 {
        return;
    }
    rg[at] += 2;
}

// A link when place k leaves.
fn relinked(k: usize, link: u64) -> u64
    requires { k < 4095 }
    ensures { result ≡ spec.relinked k link }
{
    let named = k as u64 + 1;
    if link == named {
        return 0;
    }
    if named < link {
        return link - 1;
    }
    link
}

// So m links from word i on.
fn mend_links(rg: &mut [u64], k: usize, i: usize, m: usize)
    requires { (k < 4095) × (i + m ≤ length rg.old) }
    ensures { rg.new ≡ links_mended k i m rg.old }
{
    for at in i..i + m {
        rg[at] = relinked(k, rg[at]);
    }
}

// Place k of the n leaves, from its parent's list too, and its children have no parent any more.
pub fn unregister(rg: &mut [u64], places: usize, n: usize, k: usize)
    requires { (k < n) × (n ≤ places) × (places ≤ 4095) × (5 * places + 1 ≤ length rg.old) }
    ensures { rg.new ≡ unregistered places n k rg.old }
{
    base::shift::shift_down(rg, k, n);
    base::shift::shift_down(rg, places + k, places + n);
    base::shift::shift_down(rg, 2 * places + k, 2 * places + n);
    base::shift::shift_down(rg, 3 * places + k, 3 * places + n);
    mend_links(rg, k, 3 * places + k, n - 1 - k);
}

impl Registry<'_> {
    // A `for`, since a collection, which asks this of each child that nobody holds, took 1.8 times as long with `contains`.
    fn has_child(&self, k: usize) -> bool
        requires { k < self.now.count }
        ensures { result ≡ has_child self.now.places self.now.count self.now.words.now k }
    {
        let named = k as u64 + 1;
        for j in 0..self.count {
            if self.words[3 * self.places + j] == named {
                return true;
            }
        }
        false
    }

    // Whether place k is a child of place p with no children and no holders.
    #[tactic(auto, unfolding(crate::specs::Registering::unneeded))]
    fn unneeded(&self, p: usize, k: usize) -> bool
        requires { (k < self.now.count) × (p ≤ self.now.places) }
        ensures { result ≡ spec.unneeded self.now.places p self.now.count self.now.words.now k }
    {
        self.words[3 * self.places + k] == p as u64 + 1
            && self.words[2 * self.places + k] / 4 == 0
            && !self.has_child(k)
    }
}

// The children of place p with no children and no holders leave; answers how many ids are left.
pub fn collect(rg: &mut [u64], places: usize, p: usize, n: usize) -> usize
    requires { (p ≤ places) × (n ≤ places) × (places ≤ 4095) × (5 * places + 1 ≤ length rg.old) }
    ensures { (result ≡ (collected places p n rg.old).left)
        × (rg.new ≡ (collected places p n rg.old).words) }
{
    let mut left = n;
    for k in (0..n).rev() {
        let registry = Registry {
            words: rg,
            places,
            count: left,
        };
        if registry.unneeded(p, k) {
            unregister(rg, places, left, k);
            left -= 1;
        }
    }
    left
}
