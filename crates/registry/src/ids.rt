// The recycled ids, in ascending order.
ghost use Rattle.std.specs.Prelude.{◌≡◌, ◌+◌, ◌*◌, ◌<◌, ◌≤◌, length};
ghost use Rattle.registry.specs.Words.{recycled_at};
ghost use Rattle.registry.specs.Ids.{first_taken, join_place, recycled_with};

// Takes the smallest of the m recycled ids.
pub fn take_first(rg: &mut [u64], places: usize, m: usize) -> u64
    requires { (0 < m) × (m ≤ places + 1) × (places ≤ 4095) × (5 * places + 1 ≤ length rg.old) }
    ensures rg_after { rg.new ≡ first_taken places m rg.old }
    ensures value { result ≡ recycled_at places rg.old 0 }
{
    let start = 4 * places;
    let id = rg[start];
    base::shift::shift_down(rg, start, start + m);
    id
}

// Where an id joins the m recycled ones: before the first that is larger.
fn join_place(rg: &[u64], places: usize, m: usize, id: u64) -> usize
    requires { (m ≤ places + 1) × (places ≤ 4095) × (5 * places + 1 ≤ length rg.now) }
    ensures { (result ≡ join_place places m id rg.now) × (result ≤ m) }
{
    let start = 4 * places;
    rg[start..start + m]
        .iter()
        .position(|x| id < *x)
        .unwrap_or(m)
}

// Recycles an id among the m that are.
pub fn recycle(rg: &mut [u64], places: usize, m: usize, id: u64)
    requires { (m ≤ places) × (places ≤ 4095) × (5 * places + 1 ≤ length rg.old) }
    ensures { rg.new ≡ recycled_with places m id rg.old }
{
    let at = 4 * places + join_place(rg, places, m, id);
    base::shift::shift_up(rg, at, 4 * places + m);
    rg[at] = id;
}
