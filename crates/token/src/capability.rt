//! A capability token: one 64-bit word with four fields, and how it is made and taken apart.
//! specs/Token.antt says what the word is; specs/TokenLaws.antt proves that word and fields determine each other.
ghost use Rattle.std.specs.Prelude.{◌≡◌, eqb};
ghost use Rattle.token.specs.Token.{made, id_of, generation_of, type_of, flags_of};

use answers::Refusal;

// What one of each field is worth in the word: generation, type and flags stand above the id's 48 bits.
const GENERATION: u64 = 1 << 48;

const TYPE: u64 = 1 << 56;

const FLAGS: u64 = 1 << 60;

// The largest id.
const MAX_CAP_ID: u64 = (1 << 48) - 1;

#[derive(Clone, Copy, PartialEq, Eq, Hash, Debug)]
pub struct CapabilityToken(pub u64);

/// Every word is a token.
impl From<u64> for CapabilityToken {
    ghost from_gives = { λ word token. token.0 ≡ word };

    fn from(word: u64) -> Self {
        Self(word)
    }
}

impl From<CapabilityToken> for u64 {
    ghost from_gives = { λ token word. word ≡ token.0 };

    fn from(token: CapabilityToken) -> u64 {
        token.0
    }
}

impl CapabilityToken {
    /// The token of four fields; `BadField` for an id of more than 48 bits, or a type or flags of more than 4.
    pub fn new(id: u64, generation: u8, cap_type: u8, flags: u8) -> Result<Self, Refusal>
        ensures { result ≡ made id generation cap_type flags }
    {
        if MAX_CAP_ID < id || 15 < cap_type || 15 < flags {
            return Err(Refusal::BadField);
        }
        Ok(Self(
            id + (generation as u64) * GENERATION
                + (cap_type as u64) * TYPE
                + (flags as u64) * FLAGS,
        ))
    }

    pub fn id(self) -> u64
        ensures { result ≡ id_of self.0 }
    {
        self.0 % GENERATION
    }

    pub fn generation(self) -> u8
        ensures { result ≡ generation_of self.0 }
    {
        (self.0 / GENERATION % 0x100) as u8
    }

    pub fn cap_type(self) -> u8
        ensures { result ≡ type_of self.0 }
    {
        (self.0 / TYPE % 0x10) as u8
    }

    pub fn flags(self) -> u8
        ensures { result ≡ flags_of self.0 }
    {
        (self.0 / FLAGS % 0x10) as u8
    }

    /// The token that names an id and its generation alone, with type and flags 0.
    pub fn from_id_and_generation(id: u64, generation: u8) -> Result<Self, Refusal>
        ensures { result ≡ made id generation 0 0 }
    {
        Self::new(id, generation, 0, 0)
    }

    /// The source's name for `u64::from`.
    pub fn to_u64(self) -> u64
        ensures { result ≡ self.0 }
    {
        self.0
    }

    /// The source's name for `CapabilityToken::from`.
    pub fn from_u64(value: u64) -> Self
        ensures { result.0 ≡ value }
    {
        Self(value)
    }

    pub fn is_null(self) -> bool
        ensures { result ≡ eqb self.0 0 }
    {
        self.0 == 0
    }

    pub fn null() -> Self
        ensures { result.0 ≡ 0 }
    {
        Self(0)
    }

    /// The object's id and the metadata have no place in the word: as in the source, neither is read.
    pub fn from_parts(
        id: u64,
        _object_id: u64,
        generation: u8,
        _metadata: u8,
    ) -> Result<Self, Refusal>
        ensures { result ≡ made id generation 0 0 }
    {
        Self::from_id_and_generation(id, generation)
    }
}
