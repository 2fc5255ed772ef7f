//! What most calls answer a host, for the crates whose exports answer so.
#![tactic(auto)]

use steps::{Done, Refused};

/// The answer's number, its value, and the slots that the call's search visited or the entries that it moved.
#[repr(C)]
#[derive(Clone, Copy, PartialEq, Eq, Debug)]
pub struct CallAnswer {
    pub answer: u8,
    pub value: u64,
    pub count: u64,
}

impl From<Result<Done, Refused>> for CallAnswer {
    ghost use Rattle.host_replies.specs.Replies.{Answers};

    ghost from_gives = { Answers };

    #[tactic(auto, unfolding(crate::specs::Replies::call_answer))]
    fn from(outcome: Result<Done, Refused>) -> Self {
        match outcome {
            Ok(done) => CallAnswer {
                answer: 0,
                value: done.value,
                count: done.count as u64,
            },
            Err(refused) => CallAnswer {
                answer: refused.refusal.into(),
                value: 0,
                count: refused.count as u64,
            },
        }
    }
}
