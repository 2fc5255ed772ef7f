//! The permissions that a token's four flags hold, and flags as a set of them.
//! specs/Flags.antt says what each function computes.
ghost use Rattle.std.specs.Prelude.{◌≡◌};
ghost use Rattle.token.specs.Flags.{HasNumber, Names, has_flag, combined};

use answers::Refusal;

#[derive(Clone, Copy, PartialEq, Eq, Debug)]
pub enum CapabilityFlags {
    Read = 0b0001,
    Write = 0b0010,
    Execute = 0b0100,
    Grant = 0b1000,
}

/// The permission's number, its bit alone.
impl From<CapabilityFlags> for u8 {
    ghost from_gives = { HasNumber };

    fn from(perm: CapabilityFlags) -> u8 {
        perm as u8
    }
}

/// The permission that has a number; `BadField` for a number that none has.
impl TryFrom<u8> for CapabilityFlags {
    type Error = Refusal;

    ghost try_from_gives = { Names };

    fn try_from(number: u8) -> Result<Self, Refusal> {
        match number {
            1 => Ok(Self::Read),
            2 => Ok(Self::Write),
            4 => Ok(Self::Execute),
            8 => Ok(Self::Grant),
            _ => Err(Refusal::BadField),
        }
    }
}

impl CapabilityFlags {
    pub fn has(flags: u8, perm: Self) -> bool
        ensures { result ≡ has_flag flags perm }
    {
        (flags & u8::from(perm)) != 0
    }

    /// The flags that hold every permission listed, each by its number; `BadField` if a number is no permission's.
    pub fn combine(numbers: &[u8]) -> Result<u8, Refusal>
        ensures { result ≡ combined numbers.now }
    {
        let mut flags = 0;
        for number in numbers {
            let perm = Self::try_from(*number)?;
            flags |= u8::from(perm);
        }
        Ok(flags)
    }
}
