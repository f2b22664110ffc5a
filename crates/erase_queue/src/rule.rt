//! The rule that a queue is made with, and what its steps record. These types are for the proofs alone.
ghost use Rattle.erase_queue.specs.{Rule.Ruled, Rule.counter, Rule.counted, Rule.gone, Rule.dealer, Rule.user_of, Moves.DidPut, Moves.DidTake, Moves.Stand};

use crate::sight::Sight;
use crossbeam_queue::RuledArrayQueue;
use crossbeam_queue::protocol::{Lesson, Outcome, Protocol, Split};

/// Each number is taken at its own place, in the order of the puts.
pub struct InOrder;

impl Protocol<usize, Sight> for InOrder {
    ghost holds = { Ruled };

    ghost first = { counter 0 };
}

/// The numbers of a queue.
pub type Numbers = RuledArrayQueue<usize, Sight, InOrder>;

/// One more number may be put.
pub struct CountUp;

impl Split<Sight> for CountUp {
    ghost left = { counted };

    ghost right = { λ v. gone };
}

/// The limit is fixed.
pub struct Begin;

impl Split<Sight> for Begin {
    ghost left = { dealer };

    ghost right = { λ v. gone };
}

/// A pass is dealt.
pub struct Deal;

impl Split<Sight> for Deal {
    ghost left = { λ v. v };

    ghost right = { user_of };
}

/// A number is put.
pub struct Put;

impl Outcome<usize, Sight> for Put {
    ghost then = { DidPut };
}

impl Lesson<usize, Sight> for Put {
    ghost fact = { Stand };
}

/// A number is taken.
pub struct Take;

impl Outcome<usize, Sight> for Take {
    ghost then = { DidTake };
}

impl Lesson<usize, Sight> for Take {
    ghost fact = { Stand };
}
