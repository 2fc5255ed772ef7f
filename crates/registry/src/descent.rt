// The descent of an id and its revocation in the registry. revocation.rs's `get_derivation_tree`, with the id itself in front, and of
// manager.rs's `revoke` what it does to the registry.
ghost use Rattle.std.specs.Prelude.{◌≡◌, ◌+◌, ◌-◌, ◌*◌, ◌<◌, ◌≤◌, [], ◌∷◌, ◌++◌, length, take, ◌==◌};
ghost use Rattle.registry.specs.Words.{state_at, link_at, revoked};
ghost use Rattle.registry.specs.Sound.{Linked};
ghost use Rattle.registry.specs.Counts.{AtMost};
ghost use Rattle.registry.specs.ChildLists.{ChildLists, list_from};
ghost use Rattle.base.specs.Written.{written};
ghost use Rattle.registry.specs.Children.{ids_at};
ghost use Rattle.registry.specs.PlaceLists.{AllBelow};
ghost use Rattle.registry.specs.Descent.{descent, unrevoked_of, marked};

use crate::view::Registry;

// The places of a list, from the one that `head` names on, go behind the first `count` of `order`, as many as there is room for. Answers
// how many there are then.
fn append(nexts: &[u16], head: u16, order: &mut [u16], count: usize) -> usize
    requires head_in_bounds { (head ≤ length nexts.now) × (length nexts.now ≤ 4096) × (count ≤ length order.old) }
    requires at_most { AtMost (length nexts.now) nexts.now }
    ensures order_after { take result order.new
        ≡ take count order.old ++ list_from nexts.now (length order.old - count) head }
    ensures upper_bound { result ≤ length order.old }
{
    let mut at = head as usize;
    for found in count..order.len() {
        if at == 0 {
            return found;
        }
        order[found] = (at - 1) as u16;
        at = nexts[at - 1] as usize;
    }
    order.len()
}

impl Registry<'_> {
    // Lists the children of each place, in arrays that have none yet.
    fn list_each(&self, firsts: &mut [u16], nexts: &mut [u16])
        requires linked { Linked self.now.count (link_at self.now.places self.now.words.now) }
        requires child_lists { ChildLists self.now.places self.now.count self.now.words.now firsts.old nexts.old self.now.count }
        ensures { ChildLists self.now.places self.now.count self.now.words.now firsts.new nexts.new 0 }
    {
        for k in (0..self.count).rev() {
            let link = self.words[3 * self.places + k] as usize;
            if link != 0 {
                let p = link - 1;
                nexts[k] = firsts[p];
                firsts[p] = k as u16 + 1;
            }
        }
    }

    /// Place r and all places under it, breadth first, to the front of `order`. Answers how many they are.
    pub fn descend(&self, r: usize, order: &mut [u16]) -> usize
        requires r_lt_n { (r < self.now.count) × (self.now.count ≤ length order.old) }
        requires linked { Linked self.now.count (link_at self.now.places self.now.words.now) }
        ensures order_after { (take result order.new ≡ descent self.now.places self.now.count self.now.words.now r)
            × (result ≤ self.now.count) }
        ensures all_below { AllBelow self.now.count (take result order.new) }
    {
        let mut firsts = [0u16; 4096];
        let mut nexts = [0u16; 4096];
        self.list_each(&mut firsts, &mut nexts);
        order[0] = r as u16;
        let mut count = 1;
        let mut at = 0;
        // No `for`: the list grows as it is gone along.
        while at < count {
            let p = order[at] as usize;
            count = append(&nexts, firsts[p], order, count);
            at += 1;
        }
        count
    }
}

// Whether place k is revoked.
fn is_revoked(rg: &[u64], places: usize, k: u16) -> bool
    requires { (k < places) × (places ≤ 4095) × (5 * places + 1 ≤ length rg.now) }
    ensures { result ≡ (revoked (state_at places rg.now k) == 1) }
{
    rg[2 * places + k as usize] % 2 == 1
}

// Of the first `count` places of `order` those that are not revoked yet, to its front. Answers how many they are.
pub fn keep_unrevoked(rg: &[u64], places: usize, order: &mut [u16], count: usize) -> usize
    requires places_bound { (places ≤ 4095) × (5 * places + 1 ≤ length rg.now) × (count ≤ length order.old) }
    requires all_below { AllBelow places (take count order.old) }
    ensures order_after { take result order.new ≡ unrevoked_of places rg.now (take count order.old) }
    ensures upper_bound { (result ≤ count) × AllBelow places (take result order.new) }
{
    let mut kept = 0;
    for j in 0..count {
        let k = order[j];
        if is_revoked(rg, places, k) {
            continue;
        }
        order[kept] = k;
        kept += 1;
    }
    kept
}

// Place k is revoked, with generation up by one: its state is odd from now on.
fn mark_place(rg: &mut [u64], places: usize, k: u16)
    requires { (k < places) × (places ≤ 4095) × (5 * places + 1 ≤ length rg.old) }
    ensures { rg.new ≡ marked places (k ∷ []) rg.old }
{
    let at = 2 * places + k as usize;
    rg[at] = rg[at] / 2 * 2 + 1;
}

// So each place of `order`.
pub fn mark(rg: &mut [u64], places: usize, order: &[u16])
    requires places_bound { (places ≤ 4095) × (5 * places + 1 ≤ length rg.old) }
    requires all_below { AllBelow places order.now }
    ensures { rg.new ≡ marked places order.now rg.old }
{
    for k in order {
        mark_place(rg, places, *k);
    }
}

// The ids at the places of `order`, to the front of `ids`.
pub fn ids_at(rg: &[u64], order: &[u16], ids: &mut [u64])
    requires order_in_bounds { length order.now ≤ length ids.old }
    requires all_below { AllBelow (length rg.now) order.now }
    ensures { ids.new ≡ written (ids_at rg.now order.now) ids.old }
{
    for (j, k) in order.iter().enumerate() {
        ids[j] = rg[*k as usize];
    }
}
