// The running totals of literals, each of no more than its limit.
#![tactic(auto, using(std::proofs::lemmas::Bool::Decides::nat_tests), unfolding(image::specs::paper::Faults::wrong_count))]

ghost use Rattle.std.specs.Prelude.{◌≡◌, ℕ, ◌+◌, ◌≤◌};
ghost use Rattle.image.specs.paper.Faults.{wrong_count};
ghost use Rattle.faults.specs.Taking.{finding};

use image::limits::{MOST_BODIES, MOST_LITERALS};
use image::refusals::Refusal;
use std::marker::Model;

// The literals of the records so far.
#[derive(Clone, Copy, Debug, PartialEq, Eq)]
pub struct Total<const MOST: u32> {
    sum: u32,
}

// The body literals of the clauses.
pub type Bodies = Total<MOST_BODIES>;

// The literals of the constraints.
pub type Literals = Total<MOST_LITERALS>;

// Clauses see the sum.
impl<const MOST: u32> Model for Total<MOST> {
    ghost Value = { ℕ };

    ghost view = { λ t. t.sum };

    ghost invariant = { λ t. t.sum ≤ MOST };

    ghost inverse = { λ n. record { sum = n } };
}

impl<const MOST: u32> Total<MOST> {
    // Before the first record.
    pub fn start() -> Self
        ensures { result ≡ 0 }
    {
        Total { sum: 0 }
    }

    // What so many more earn: "the total must keep its limit (5)".
    pub fn wrong_with(self, more: u32) -> Result<(), Refusal>
        ensures { finding result ≡ wrong_count MOST (self.entry + more) }
    {
        if MOST - self.sum < more {
            return Err(Refusal::Limit);
        }
        Ok(())
    }

    // The total with so many more, which it has room for.
    pub fn with(self, more: u32) -> Self
        requires { self + more ≤ MOST }
        ensures { result ≡ self.entry + more }
    {
        Total {
            sum: self.sum + more,
        }
    }
}
