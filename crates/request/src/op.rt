//! The operations of the request stream.
ghost use Rattle.request.specs.Op.{Names};

use answers::Refusal;

// What a record asks for. The discriminant is the number that records hold.
#[derive(Clone, Copy, PartialEq, Eq, Debug)]
pub enum Op {
    Create = 1,
    Delegate = 2,
    Lookup = 3,
    Check = 4,
    Remove = 5,
    Delete = 6,
    RevokeHeld = 7,
    Clear = 8,
    Copy = 9,
    RevokeAll = 10,
    Insert = 11,
    CreateInSpace = 12,
    RevokeInSpace = 13,
    Drain = 14,
    RevokeCapability = 15,
}

// The operation that has a number; `BadField` for a number that none has.
impl TryFrom<u64> for Op {
    type Error = Refusal;

    ghost try_from_gives = { Names };

    #[tactic(auto, unfolding(crate::specs::Op::named))]
    fn try_from(number: u64) -> Result<Self, Refusal> {
        match number {
            1 => Ok(Self::Create),
            2 => Ok(Self::Delegate),
            3 => Ok(Self::Lookup),
            4 => Ok(Self::Check),
            5 => Ok(Self::Remove),
            6 => Ok(Self::Delete),
            7 => Ok(Self::RevokeHeld),
            8 => Ok(Self::Clear),
            9 => Ok(Self::Copy),
            10 => Ok(Self::RevokeAll),
            11 => Ok(Self::Insert),
            12 => Ok(Self::CreateInSpace),
            13 => Ok(Self::RevokeInSpace),
            14 => Ok(Self::Drain),
            15 => Ok(Self::RevokeCapability),
            _ => Err(Refusal::BadField),
        }
    }
}
