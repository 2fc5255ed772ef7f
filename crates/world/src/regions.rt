//! Where each region of the memory stands.
ghost use Rattle.std.specs.Prelude.{◌≡◌, ◌<◌};
ghost use Rattle.world.specs.Numbers.{InRange};
ghost use Rattle.world.specs.Regions.{space, registry, log, queue, width_of, length_for, StartsAt, Spans};

use crate::Numbers;
use revocation::queues::QUEUE;
use std::ops::Range;

/// The words of a space.
#[tactic(auto, unfolding(crate::specs::Regions::width_of))]
pub fn width(d: Numbers) -> usize
    requires { InRange d }
    ensures { result ≡ width_of d }
{
    8 + 4 * table::slots_for(d.most)
}

/// The words that the memory needs.
#[tactic(auto, using(crate::proofs::Starts::length_fits), unfolding(crate::specs::Regions::start_of, crate::specs::Regions::length_for))]
pub fn length_for(d: Numbers) -> usize
    requires { InRange d }
    ensures { result ≡ length_for d }
{
    queue_at(d, 0) + d.queues * QUEUE
}

pub fn space_at(d: Numbers, s: usize) -> usize
    requires { InRange d × (s < d.spaces) }
    ensures { StartsAt d (space s) result }
{
    16 + s * width(d)
}

pub fn registry_at(d: Numbers) -> usize
    requires { InRange d }
    ensures { StartsAt d registry result }
{
    16 + d.spaces * width(d)
}

#[tactic(auto, using(crate::proofs::Starts::length_fits), unfolding(crate::specs::Regions::start_of, crate::specs::Regions::length_for))]
pub fn log_at(d: Numbers) -> usize
    requires { InRange d }
    ensures { StartsAt d log result }
{
    registry_at(d) + 5 * d.places + 1
}

#[tactic(auto, using(crate::proofs::Starts::length_fits), unfolding(crate::specs::Regions::start_of, crate::specs::Regions::length_for))]
pub fn queue_at(d: Numbers, q: usize) -> usize
    requires { InRange d × (q < d.queues) }
    ensures { StartsAt d (queue q) result }
{
    log_at(d) + d.pairs + q * QUEUE
}

impl Numbers {
    /// The places of the words of space s.
    #[tactic(auto, using(crate::proofs::Starts::length_fits))]
    pub fn space(self, s: usize) -> Range<usize>
        requires { InRange self × (s < self.spaces) }
        ensures { Spans self (space s) result.start result.end }
    {
        let start = space_at(self, s);
        start..start + width(self)
    }

    /// The places of the registry's words.
    #[tactic(auto, unfolding(crate::specs::Regions::start_of))]
    pub fn registry(self) -> Range<usize>
        requires { InRange self }
        ensures { Spans self registry result.start result.end }
    {
        registry_at(self)..log_at(self)
    }

    /// The places of the log's words.
    #[tactic(auto, using(crate::proofs::Starts::length_fits))]
    pub fn log(self) -> Range<usize>
        requires { InRange self }
        ensures { Spans self log result.start result.end }
    {
        let start = log_at(self);
        start..start + self.pairs
    }

    /// The places of the words of queue q.
    #[tactic(auto, using(crate::proofs::Starts::length_fits))]
    pub fn queue(self, q: usize) -> Range<usize>
        requires { InRange self × (q < self.queues) }
        ensures { Spans self (queue q) result.start result.end }
    {
        let start = queue_at(self, q);
        start..start + QUEUE
    }
}
