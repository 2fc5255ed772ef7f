//! Words of a slice moved by one place, over a word that goes or to make room for one that comes.
ghost use Rattle.std.specs.Prelude.{◌≡◌, ◌<◌, ◌≤◌, length};
ghost use Rattle.base.specs.Shift.{shifted_down, shifted_up};

/// The word at `at` goes: the words after it, up to `end`, move down by one place.
#[tactic(auto, using(crate::specs::Shift::shift_laws))]
pub fn shift_down(xs: &mut [u64], at: usize, end: usize)
    requires { (at < end) × (end ≤ length xs.old) }
    ensures { xs.new ≡ shifted_down at end xs.old }
{
    xs.copy_within(at + 1..end, at);
}

/// Room for a word at `at`: the words from there up to `end` move up by one place, over the word at `end`.
#[tactic(auto, using(crate::specs::Shift::shift_laws))]
pub fn shift_up(xs: &mut [u64], at: usize, end: usize)
    requires { (at ≤ end) × (end < length xs.old) }
    ensures { xs.new ≡ shifted_up at end xs.old }
{
    xs.copy_within(at..end, at + 1);
}
