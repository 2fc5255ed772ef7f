// What every call does first: the look over the memory, then the test of a space number.
ghost use Rattle.std.specs.Prelude.{◌≡◌, ◌<◌, IfOk};
ghost use Rattle.world.specs.Sound.{SoundAt};
ghost use Rattle.steps.specs.Enter.{entered_world, entered_space};
ghost use Rattle.steps.specs.Ready.{Ready};

use answers::Refusal;
use world::Numbers;
use world::head::numbers;
use world_look::is_sound;

/// The numbers of a sound memory; 26 on one that is not sound.
#[tactic(auto, using(crate::proofs::Entering::head_there), unfolding(crate::specs::Enter::entered_world, base::specs::Choose::when))]
pub fn enter_world(mem: &[u64]) -> Result<Numbers, Refusal>
    ensures value { result ≡ entered_world mem.now }
    ensures sound { IfOk result (λ d. SoundAt d mem.now) }
    ensures ready { IfOk result (λ d. Ready d mem.now) }
{
    if !is_sound(mem) {
        return Err(Refusal::BadWorld);
    }
    Ok(numbers(mem))
}

/// The same for a call on a space: 26, then 20 for a space number of S or more.
#[tactic(auto, unfolding(crate::specs::Enter::entered_space, base::specs::Choose::when))]
pub fn enter_space(mem: &[u64], s: usize) -> Result<Numbers, Refusal>
    ensures value { result ≡ entered_space mem.now s }
    ensures sound { IfOk result (λ d. SoundAt d mem.now) }
    ensures ready { IfOk result (λ d. Ready d mem.now × (s < d.spaces)) }
{
    let d = enter_world(mem)?;
    if d.spaces <= s {
        return Err(Refusal::BadSpace);
    }
    Ok(d)
}
