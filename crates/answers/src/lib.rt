//! Why a call refuses: the source's refusals and those that the port adds, each with its number.
//! specs/Answer.antt has the whole table of answers, with Done for a call that is done, and specs/Number.antt their numbers.
#![tactic(auto)]

/// Why a call refuses. The discriminant is the number that hosts see; 0 is the answer of a call that is done.
#[derive(Clone, Copy, PartialEq, Eq, Debug)]
pub enum Refusal {
    InvalidCapability = 1,
    InsufficientRights = 2,
    CapabilityRevoked = 3,
    OutOfMemory = 4,
    InvalidObject = 5,
    PermissionDenied = 6,
    AlreadyExists = 7,
    NotFound = 8,
    IdExhausted = 9,
    QuotaExceeded = 10,
    SpaceQuota = 11,
    SpaceIds = 12,
    BadSpace = 20,
    BadField = 21,
    RegistryFull = 22,
    RecycleFull = 23,
    LogFull = 24,
    PidTableFull = 25,
    BadWorld = 26,
}

/// The refusal's number, as hosts see it.
impl From<Refusal> for u8 {
    ghost use Rattle.answers.specs.Number.{HasNumber};

    ghost from_gives = { HasNumber };

    fn from(refusal: Refusal) -> u8 {
        refusal as u8
    }
}
