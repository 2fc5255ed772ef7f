// Taking an id: the smallest recycled one, else the next.
ghost use Rattle.std.specs.Prelude.{◌≡◌};
ghost use Rattle.steps.specs.Ready.{Ready};
ghost use Rattle.steps.specs.Steps.{taken_id, take_step};

use world::Numbers;
use world::head::{NEXT, RECYCLED};

#[tactic(auto, using(crate::proofs::laws::Taking::take_laws))]
pub fn take_id(mem: &mut [u64], d: Numbers) -> Option<u64>
    requires { Ready d mem.old }
    ensures mem_after { mem.new ≡ take_step d mem.old }
    ensures value { result ≡ taken_id d mem.old }
{
    let recycled = mem[RECYCLED] as usize;
    if 0 < recycled {
        let id = registry::ids::take_first(&mut mem[d.registry()], d.places, recycled);
        mem[RECYCLED] = (recycled - 1) as u64;
        return Some(id);
    }
    let next = mem[NEXT];
    if next < 0x1_0000_0000_0000 {
        mem[NEXT] = next + 1;
        return Some(next);
    }
    None
}
