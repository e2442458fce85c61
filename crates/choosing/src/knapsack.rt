// What the chooser works on: candidates within the limits, and the capacity that a sequence of them has to fit.
ghost use Rattle.std.specs.Prelude.{◌≡◌, ◌≤◌, ◌↔◌, All, IfSome, IsTrue, MatchOption};
ghost use Rattle.choosing.specs.Calls.{Workable};
ghost use Rattle.choosing.specs.Limits.{Fair, FairOne};

use crate::Candidate;
use crate::worth::Worth;

// The least size of a candidate.
const LEAST_SIZE: usize = 50;

// The greatest capacity.
const MOST_CAPACITY: usize = 3200;

// How many candidates of the least size fit the greatest capacity, so that no sequence is longer.
pub(crate) const LONGEST: usize = 64;

// Candidates of which each takes room, is worth more than nothing and has few pieces, and a capacity of at most the greatest.
// The first fact is truncated, since a worth may be `within` so many pieces in several ways.
#[derive(Drop)]
pub(crate) struct Knapsack<'a, W: Worth> {
    pub(crate) candidates: &'a [Candidate<W>],
    pub(crate) capacity: usize,
    pub(crate) ghost fair: { ∥ Fair W.scale W.within 64 candidates.now ∥₁ },
    pub(crate) ghost limit: { capacity ≤ 3200 },
}

impl<W: Worth> Candidate<W> {
    // Whether it takes room, is worth more than nothing and has few pieces.
    fn is_fair(&self) -> bool
        ensures { IsTrue result ↔ FairOne W.scale W.within 64 self.now }
    {
        self.size >= LEAST_SIZE && W::nothing().less(self.worth) && self.worth.few()
    }
}

// Whether each candidate is such.
#[tactic(auto, using(crate::proofs::Fairness::fair_all, crate::proofs::Fairness::all_fair))]
fn are_fair<W: Worth>(candidates: &[Candidate<W>]) -> bool
    ensures { IsTrue result ↔ Fair W.scale W.within 64 candidates.now }
{
    candidates.iter().all(Candidate::is_fair)
}

impl<'a, W: Worth> Knapsack<'a, W> {
    // What can be worked on with a table of so many places, or None.
    pub(crate) fn new(
        candidates: &'a [Candidate<W>],
        capacity: usize,
        places: usize,
    ) -> Option<Self>
        ensures workable { MatchOption result (Workable W.scale W.within candidates.now capacity places → ⊥) (λ _. Workable W.scale W.within candidates.now capacity places) }
        ensures given { IfSome result (λ k. (k.candidates.now ≡ candidates.now) × (k.capacity ≡ capacity)) }
    {
        if capacity <= MOST_CAPACITY && capacity < places && are_fair(candidates) {
            Some(Knapsack {
                candidates,
                capacity,
            })
        } else {
            None
        }
    }
}
