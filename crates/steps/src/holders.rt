// The registry's holders, counted in the world's memory.
ghost use Rattle.std.specs.Prelude.{◌≡◌, ◌≤◌};
ghost use Rattle.steps.specs.Ready.{Fits};
ghost use Rattle.steps.specs.Steps.{hold_step, release_step, hold_all_step, release_all_step};

use world::Numbers;

pub fn hold(mem: &mut [u64], d: Numbers, n: usize, id: u64)
    requires { Fits d mem.old × (n ≤ d.places) }
    ensures { mem.new ≡ hold_step d n id mem.old }
{
    registry::holders::hold(&mut mem[d.registry()], d.places, n, id);
}

pub fn release(mem: &mut [u64], d: Numbers, n: usize, id: u64)
    requires { Fits d mem.old × (n ≤ d.places) }
    ensures { mem.new ≡ release_step d n id mem.old }
{
    registry::holders::release(&mut mem[d.registry()], d.places, n, id);
}

pub fn hold_all(mem: &mut [u64], d: Numbers, n: usize, ids: &[u64])
    requires { Fits d mem.old × (n ≤ d.places) }
    ensures { mem.new ≡ hold_all_step d n ids.now mem.old }
{
    registry::holders::hold_all(&mut mem[d.registry()], d.places, n, ids);
}

pub fn release_all(mem: &mut [u64], d: Numbers, n: usize, ids: &[u64])
    requires { Fits d mem.old × (n ≤ d.places) }
    ensures { mem.new ≡ release_all_step d n ids.now mem.old }
{
    registry::holders::release_all(&mut mem[d.registry()], d.places, n, ids);
}
