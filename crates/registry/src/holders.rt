// The holders of an id: how many spaces hold it, counted where the id is registered. manager.rs's `hold` and `release`.
ghost use Rattle.std.specs.Prelude.{◌≡◌, ◌+◌, ◌*◌, ◌≤◌, length};
ghost use Rattle.registry.specs.Holders.{place_of, held, released, held_all, released_all};

// The place of an id among the n that are registered, or n. A `for`, since a copy, which searches the ids of two spaces one after the
// other, took 1.4 times as long with `position`.
pub fn place_of(rg: &[u64], n: usize, id: u64) -> usize
    requires { n ≤ length rg.now }
    ensures { (result ≡ place_of n rg.now id) × (result ≤ n) }
{
    for k in 0..n {
        if rg[k] == id {
            return k;
        }
    }
    n
}

// A capability space now holds the id.
pub fn hold(rg: &mut [u64], places: usize, n: usize, id: u64)
    requires { (n ≤ places) × (places ≤ 4095) × (5 * places + 1 ≤ length rg.old) }
    ensures { rg.new ≡ held places n id rg.old }
{
    let k = place_of(rg, n, id);
    if k < n {
        let at = 2 * places + k;
        rg[at] = rg[at].wrapping_add(4);
    }
}

// A capability space no longer holds the id.
pub fn release(rg: &mut [u64], places: usize, n: usize, id: u64)
    requires { (n ≤ places) × (places ≤ 4095) × (5 * places + 1 ≤ length rg.old) }
    ensures { rg.new ≡ released places n id rg.old }
{
    let k = place_of(rg, n, id);
    if k < n {
        let at = 2 * places + k;
        if rg[at] >= 4 {
            rg[at] -= 4;
        }
    }
}

// A capability space now holds each of the ids.
pub fn hold_all(rg: &mut [u64], places: usize, n: usize, ids: &[u64])
    requires { (n ≤ places) × (places ≤ 4095) × (5 * places + 1 ≤ length rg.old) }
    ensures { rg.new ≡ held_all places n ids.now rg.old }
{
    for id in ids {
        hold(rg, places, n, *id);
    }
}

// A capability space holds none of the ids any more.
pub fn release_all(rg: &mut [u64], places: usize, n: usize, ids: &[u64])
    requires { (n ≤ places) × (places ≤ 4095) × (5 * places + 1 ≤ length rg.old) }
    ensures { rg.new ≡ released_all places n ids.now rg.old }
{
    for id in ids {
        release(rg, places, n, *id);
    }
}
