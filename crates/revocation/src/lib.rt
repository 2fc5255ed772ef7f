// The revocation log and the notification queues, each on its own slice of words, and the reasons that a notification gives.
#![tactic(auto)]

ghost use Rattle.std.specs.Prelude.{◌≡◌, ◌≤◌, length};
ghost use Rattle.base.specs.Written.{written};
ghost use Rattle.revocation.specs.Reason.{HasNumber, Names, name_of, reason_of};

use answers::Refusal;

pub mod log;
pub mod look;
pub mod queues;

// Why a capability was revoked. The discriminant is the number that notices hold.
#[derive(Clone, Copy, PartialEq, Eq, Debug)]
pub enum RevocationReason {
    // By the process that owns it.
    Explicit = 0,
    // With its parent.
    ParentRevoked = 1,
    // The process that held it exited.
    ProcessExit = 2,
    // By a security policy.
    PolicyEnforced = 3,
}

// The reason's number, as notices hold it.
impl From<RevocationReason> for u8 {
    ghost from_gives = { HasNumber };

    fn from(reason: RevocationReason) -> u8 {
        reason as u8
    }
}

// The reason that has a number of 0 to 3, for any other number the last.
pub fn reason_of(number: u8) -> RevocationReason
    ensures { result ≡ reason_of number }
{
    match number {
        0 => RevocationReason::Explicit,
        1 => RevocationReason::ParentRevoked,
        2 => RevocationReason::ProcessExit,
        _ => RevocationReason::PolicyEnforced,
    }
}

// The reason that has a number; `BadField` for a number that none has.
impl TryFrom<u8> for RevocationReason {
    type Error = Refusal;

    ghost try_from_gives = { Names };

    fn try_from(number: u8) -> Result<Self, Refusal> {
        if 3 < number {
            return Err(Refusal::BadField);
        }
        Ok(reason_of(number))
    }
}

impl RevocationReason {
    // Its name, the source's `as_str`, in bytes: a lent area takes them as they are.
    pub fn name(self) -> &'static [u8]
        ensures { result.now ≡ name_of self }
    {
        match self {
            Self::Explicit => b"explicit",
            Self::ParentRevoked => b"parent_revoked",
            Self::ProcessExit => b"process_exit",
            Self::PolicyEnforced => b"policy_enforced",
        }
    }
}

// Writes the reason's name to the front of the area; answers its length.
#[tactic(auto, unfolding(base::specs::Written::written))]
pub fn write_reason(reason: RevocationReason, area: &mut [u8]) -> usize
    requires { length (name_of reason) ≤ length area.old }
    ensures { (result ≡ length (name_of reason)) × (area.new ≡ written (name_of reason) area.old) }
{
    let name = reason.name();
    area[..name.len()].copy_from_slice(name);
    name.len()
}
