//! Flags for a host: a permission is its number, 1, 2, 4 or 8; 21 for any other number.
ghost use Rattle.std.specs.Prelude.{◌≡◌};
ghost use Rattle.token.specs.Flags.{named, combined};
ghost use Rattle.host_tokens.specs.Answered.{has_answer, flags_answer};

use token::CapabilityFlags;

/// For C: the answer's number, and whether the flags have the permission; a refusal says no.
#[repr(C)]
#[derive(Clone, Copy)]
pub struct HasAnswer {
    pub answer: u8,
    pub has: bool,
}

/// For C: the answer's number, and the flags; those of a refusal are 0.
#[repr(C)]
#[derive(Clone, Copy)]
pub struct FlagsAnswer {
    pub answer: u8,
    pub flags: u8,
}

#[tactic(auto, unfolding(crate::specs::Answered::has_answer))]
#[unsafe(no_mangle)]
pub extern "C" fn stonespry_flags_has(flags: u8, number: u8) -> HasAnswer
    ensures { result ≡ has_answer flags (named number) }
{
    match CapabilityFlags::try_from(number) {
        Ok(perm) => HasAnswer {
            answer: 0,
            has: CapabilityFlags::has(flags, perm),
        },
        Err(refusal) => HasAnswer {
            answer: u8::from(refusal),
            has: false,
        },
    }
}

#[tactic(auto, unfolding(crate::specs::Answered::flags_answer))]
#[unsafe(no_mangle)]
pub extern "C" fn stonespry_flags_combine(numbers: &[u8]) -> FlagsAnswer
    ensures { result ≡ flags_answer (combined numbers.now) }
{
    match CapabilityFlags::combine(numbers) {
        Ok(flags) => FlagsAnswer { answer: 0, flags },
        Err(refusal) => FlagsAnswer {
            answer: u8::from(refusal),
            flags: 0,
        },
    }
}
