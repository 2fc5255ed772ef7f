//! Rights: a set of up to 32 permissions, of which eight have names.
//! specs/Rights.antt says what each function computes; specs/RightsLaws.antt what that means for each right.
ghost use Rattle.std.specs.Prelude.{◌≡◌, ◌%◌, ◌^◌, eqb, get_or};
ghost use Rattle.token.specs.Rights.{constants, holds, common, either, without, others, to_flags};

use super::flags::CapabilityFlags;
use std::ops::{BitAnd, BitOr, BitOrAssign, Not};

#[derive(Clone, Copy, PartialEq, Eq, Hash, Debug)]
pub struct Rights(pub u32);

// The named rights in the order of their bits, then all of them.
const CONSTANTS: [Rights; 9] = [
    Rights::READ,
    Rights::WRITE,
    Rights::EXECUTE,
    Rights::GRANT,
    Rights::REVOKE,
    Rights::DELETE,
    Rights::MODIFY,
    Rights::CREATE,
    Rights::ALL,
];

/// Every 32-bit word is a set of rights.
impl From<u32> for Rights {
    ghost from_gives = { λ word rights. rights.0 ≡ word };

    fn from(word: u32) -> Self {
        Self(word)
    }
}

/// The whole word, as memory and hosts hold it.
impl From<Rights> for u32 {
    ghost from_gives = { λ rights word. word ≡ rights.0 };

    fn from(rights: Rights) -> u32 {
        rights.0
    }
}

/// The rights that either has.
impl BitOr for Rights {
    type Output = Rights;

    ghost bitor_gives = { λ a b out. out.0 ≡ either a.0 b.0 };

    fn bitor(self, other: Self) -> Self {
        self.union(other)
    }
}

impl BitOrAssign for Rights {
    ghost bitor_assign_gives = { λ a b out. out.0 ≡ either a.0 b.0 };

    fn bitor_assign(&mut self, other: Self) {
        *self = self.union(other);
    }
}

/// The rights that both have.
impl BitAnd for Rights {
    type Output = Rights;

    ghost bitand_gives = { λ a b out. out.0 ≡ common a.0 b.0 };

    fn bitand(self, other: Self) -> Self {
        self.intersection(other)
    }
}

/// The rights that it has not, of all 32.
impl Not for Rights {
    type Output = Rights;

    ghost not_gives = { λ a out. out.0 ≡ others a.0 };

    fn not(self) -> Self {
        Self(!self.0)
    }
}

impl Rights {
    pub const READ: Self = Self(1 << 0);

    pub const WRITE: Self = Self(1 << 1);

    pub const EXECUTE: Self = Self(1 << 2);

    pub const GRANT: Self = Self(1 << 3);

    pub const REVOKE: Self = Self(1 << 4);

    pub const DELETE: Self = Self(1 << 5);

    pub const MODIFY: Self = Self(1 << 6);

    pub const CREATE: Self = Self(1 << 7);

    pub const ALL: Self = Self(0xFF);

    /// The constants by number, for a host that cannot name them: READ is 0, CREATE 7, ALL 8; past that, no rights.
    pub fn constant(number: u8) -> Self
        ensures { result.0 ≡ get_or constants number 0 }
    {
        let i = number as usize;
        if i < 9 { CONSTANTS[i] } else { Self::empty() }
    }

    pub fn new(rights: u32) -> Self
        ensures { result.0 ≡ rights }
    {
        Self(rights)
    }

    pub fn contains(self, other: Self) -> bool
        ensures { result ≡ holds self.0 other.0 }
    {
        (self.0 & other.0) == other.0
    }

    pub fn intersection(self, other: Self) -> Self
        ensures { result.0 ≡ common self.0 other.0 }
    {
        Self(self.0 & other.0)
    }

    pub fn union(self, other: Self) -> Self
        ensures { result.0 ≡ either self.0 other.0 }
    {
        Self(self.0 | other.0)
    }

    pub fn remove(self, other: Self) -> Self
        ensures { result.0 ≡ without self.0 other.0 }
    {
        Self(self.0 & !other.0)
    }

    /// The low 16 bits, for error reporting.
    pub fn bits(self) -> u16
        ensures { result ≡ self.0 % 2 ^ 16 }
    {
        (self.0 % 0x1_0000) as u16
    }

    pub fn is_empty(self) -> bool
        ensures { result ≡ eqb self.0 0 }
    {
        self.0 == 0
    }

    pub fn empty() -> Self
        ensures { result.0 ≡ 0 }
    {
        Self(0)
    }

    pub fn to_flags(self) -> u8
        ensures { result ≡ to_flags self.0 }
    {
        let mut flags = 0;
        if self.contains(Self::READ) {
            flags |= CapabilityFlags::Read as u8;
        }
        if self.contains(Self::WRITE) {
            flags |= CapabilityFlags::Write as u8;
        }
        if self.contains(Self::EXECUTE) {
            flags |= CapabilityFlags::Execute as u8;
        }
        if self.contains(Self::GRANT) {
            flags |= CapabilityFlags::Grant as u8;
        }
        flags
    }

    pub fn difference(self, other: Self) -> Self
        ensures { result.0 ≡ without self.0 other.0 }
    {
        self.remove(other)
    }
}
