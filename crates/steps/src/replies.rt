// What every call answers: that it is done, with a value and a count, or why it refuses.
ghost use Rattle.std.specs.Prelude.{◌≡◌};

use answers::Refusal;

/// What a call that is done answers: a value, and the slots that its search visited or the entries that it moved.
#[derive(Clone, Copy, PartialEq, Eq, Debug)]
pub struct Done {
    pub value: u64,
    pub count: usize,
}

/// Why a call refuses, and its count: the visits of its lookup, where its count is visits and it refuses after that, else 0.
#[derive(Clone, Copy, PartialEq, Eq, Debug)]
pub struct Refused {
    pub refusal: Refusal,
    pub count: usize,
}

impl Done {
    /// A value alone, with the count 0.
    pub fn with(value: u64) -> Done
        ensures { result ≡ record { value = value; count = 0 } }
    {
        Done { value, count: 0 }
    }
}

impl Refused {
    /// A refusal whose count is the visits of a search.
    pub fn after(refusal: Refusal, visits: usize) -> Refused
        ensures { result ≡ record { refusal = refusal; count = visits } }
    {
        Refused {
            refusal,
            count: visits,
        }
    }
}

/// A refusal whose count is 0.
impl From<Refusal> for Refused {
    ghost use Rattle.steps.specs.Replies.{Unvisited};

    ghost from_gives = { Unvisited };

    fn from(refusal: Refusal) -> Self {
        Refused { refusal, count: 0 }
    }
}
