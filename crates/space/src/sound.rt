// Whether a space is sound: document 01's rules of one space.
ghost use Rattle.std.specs.Prelude.{◌≡◌, ◌≤◌, length};
ghost use Rattle.space.specs.Words.{words_for};
ghost use Rattle.space.specs.Sound.{space_test};

use super::words::{GENERATION, QUOTA, TABLE, table_of};

#[tactic(auto, using(crate::proofs::CodeSound::sound_laws))]
pub fn is_sound(sp: &[u64], most: usize) -> bool
    requires { (most ≤ 256) × (words_for most ≤ length sp.now) }
    ensures { result ≡ space_test most sp.now }
{
    sp[GENERATION] <= 255
        && sp[QUOTA] as usize <= most
        && table_look::is_sound(&sp[TABLE..], table_of(sp), most)
}
