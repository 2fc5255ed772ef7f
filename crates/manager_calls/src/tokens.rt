// The token of a registered id: how it is made, and whether one is current.
ghost use Rattle.std.specs.Prelude.{◌≡◌, ◌<◌, ◌≤◌};
ghost use Rattle.steps.specs.Ready.{Ready};
ghost use Rattle.manager_calls.specs.Tokens.{token_of, current};

use steps::registered::state_at;
use token::{CapabilityToken, Rights};
use world::Numbers;

// The token of an unrevoked id, whose generation is 0. `CapabilityToken::new` would test fields that are in range wherever this is
// called, and every caller would have to deal with a refusal that cannot come.
pub fn token_of(id: u64, cap_type: u8, rights: Rights) -> CapabilityToken
    requires { cap_type ≤ 15 }
    ensures { result.0 ≡ token_of id cap_type rights.0 }
{
    let flags = rights.to_flags();
    CapabilityToken(
        id % 0x1_0000_0000_0000
            + (cap_type as u64) * 0x100_0000_0000_0000
            + (flags as u64) * 0x1000_0000_0000_0000,
    )
}

// Whether place k is unrevoked and of the token's generation, which is then 0.
pub fn is_current(mem: &[u64], d: Numbers, token: CapabilityToken, k: usize) -> bool
    requires { Ready d mem.now × (k < d.places) }
    ensures { result ≡ current d mem.now token.0 k }
{
    let generation = state_at(mem, d, k) % 2;
    generation == 0 && token.generation() as u64 == generation
}
