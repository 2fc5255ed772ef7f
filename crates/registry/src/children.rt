// What is read of derivation, and of ids that may not be registered. revocation.rs's `get_children` and `derivation_tree_stats`.
ghost use Rattle.std.specs.Prelude.{◌≡◌, ◌≤◌, length};
ghost use Rattle.registry.specs.Words.{link_at, children};
ghost use Rattle.base.specs.Written.{written};
ghost use Rattle.registry.specs.Children.{child_ids};
ghost use Rattle.registry.specs.Children as spec;

use crate::view::Registry;

impl Registry<'_> {
    /// How many children place p has.
    pub fn child_count(&self, p: usize) -> usize
        requires { p ≤ self.now.places }
        ensures { (result ≡ children (link_at self.now.places self.now.words.now) self.now.count p) × (result ≤ self.now.count) }
    {
        let named = p as u64 + 1;
        let mut count = 0;
        for k in 0..self.count {
            count += (self.words[3 * self.places + k] == named) as usize;
        }
        count
    }

    /// The ids of the children of place p, in list order, to the front of `area`.
    pub fn list_children(&self, p: usize, area: &mut [u64])
        requires p_le_places { p ≤ self.now.places }
        requires p_in_bounds { children (link_at self.now.places self.now.words.now) self.now.count p ≤ length area.old }
        ensures { area.new ≡ written (child_ids self.now.places p self.now.count self.now.words.now) area.old }
    {
        let named = p as u64 + 1;
        let mut count = 0;
        for k in 0..self.count {
            if self.words[3 * self.places + k] == named {
                area[count] = self.words[k];
                count += 1;
            }
        }
    }

    /// How many ids have a list of children.
    pub fn parents(&self) -> usize
        ensures { result ≡ spec.parents self.now.places self.now.count self.now.words.now }
    {
        let mut count = 0;
        for k in 0..self.count {
            count += (self.words[2 * self.places + k] / 2 % 2) as usize;
        }
        count
    }

    /// How many children stand in lists.
    pub fn edges(&self) -> usize
        ensures { result ≡ spec.edges self.now.places self.now.count self.now.words.now }
    {
        let mut count = 0;
        for k in 0..self.count {
            count += (self.words[3 * self.places + k] != 0) as usize;
        }
        count
    }
}

// How many of these ids are not registered.
pub fn strays(rg: &[u64], n: usize, ids: &[u64]) -> usize
    requires { (n ≤ length rg.now) × (length ids.now ≤ 512) }
    ensures { result ≡ spec.strays n rg.now ids.now }
{
    let mut count = 0;
    for id in ids {
        count += (super::holders::place_of(rg, n, *id) == n) as usize;
    }
    count
}
