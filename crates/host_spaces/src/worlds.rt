// The world for a host: its memory is a slice of words that the host lends.
ghost use Rattle.std.specs.Prelude.{◌≡◌};
ghost use Rattle.world.specs.Open.{opening};
ghost use Rattle.world.specs.Sound.{sound_test};
ghost use Rattle.host_spaces.specs.Worlds.{numbered};

use world::Numbers;

// Whether the memory is sound: 26 is for what is not.
#[unsafe(no_mangle)]
pub extern "C" fn stonespry_is_sound(mem: &[u64]) -> bool
    ensures { result ≡ sound_test mem.now }
{
    world_look::is_sound(mem)
}

// Opens a world in the memory; the answer's number.
#[tactic(auto, unfolding(crate::specs::Worlds::numbered))]
#[unsafe(no_mangle)]
pub extern "C" fn stonespry_open(
    mem: &mut [u64],
    spaces: usize,
    most: usize,
    places: usize,
    pairs: usize,
    queues: usize,
    quotas: &[u64],
) -> u8
    ensures { record { answer = result; memory = mem.new }
        ≡ numbered
        (opening (record { spaces = spaces; most = most; places = places; pairs = pairs; queues = queues })
        quotas.now mem.old) }
{
    let d = Numbers {
        spaces,
        most,
        places,
        pairs,
        queues,
    };
    match world::open::open(mem, d, quotas) {
        Ok(()) => 0,
        Err(refusal) => refusal.into(),
    }
}
