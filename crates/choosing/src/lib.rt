// One chooser for pieces in a strip, strips on a plate and strips in a segment: of the sequences of candidates that fit a capacity, the first of greatest worth.
#![tactic(auto)]

ghost use Rattle.std.specs.Prelude.{◌≡◌, length, MatchOption};
ghost use Rattle.choosing.specs.Calls.{Choosable, GreatestWorth, Selected, Tabled, Workable};

use knapsack::{Knapsack, LONGEST};
use worth::Worth;

mod knapsack;
mod sequence;
mod table;
pub mod worth;

// One candidate: the room that it takes and what it is worth.
#[derive(Clone, Copy, Debug, Default, PartialEq, Eq)]
pub struct Candidate<W> {
    pub size: usize,
    pub worth: W,
}

// A chosen sequence: how many positions it has, and what it is worth. The positions are in lent memory, as all work memory is.
#[derive(Clone, Copy, Debug, PartialEq, Eq)]
pub struct Selection<W> {
    pub count: usize,
    pub worth: W,
}

// The greatest worth of a sequence of candidates, each as often as wanted, whose sizes add to at most the capacity.
// The table then has it for each capacity up to the one given. None where the chooser cannot work on these.
pub fn greatest_worth<W: Worth>(
    candidates: &[Candidate<W>],
    capacity: usize,
    table: &mut [W],
) -> Option<W>
    ensures answered { MatchOption result (Workable W.scale W.within candidates.now capacity (length table.old) → ⊥) (λ worth. Workable W.scale W.within candidates.now capacity (length table.old) × GreatestWorth W.scale candidates.now capacity worth) }
    ensures left { MatchOption result (table.new ≡ table.old) (λ _. Tabled W.scale candidates.now capacity table.old table.new) }
{
    let knapsack = Knapsack::new(candidates, capacity, table.len())?;
    Some(knapsack.fill(table))
}

// The first of the sequences of greatest worth: at the first difference the earlier candidate is first. Its positions are written to the front of `order`.
// None where the chooser cannot work on these, or `order` is too short.
pub fn choose<W: Worth>(
    candidates: &[Candidate<W>],
    capacity: usize,
    table: &mut [W],
    order: &mut [usize],
) -> Option<Selection<W>>
    ensures answered { MatchOption result (Choosable W.scale W.within candidates.now capacity (length table.old) (length order.old) → ⊥) (λ chosen. Choosable W.scale W.within candidates.now capacity (length table.old) (length order.old) × Selected W.scale candidates.now capacity chosen order.old order.new) }
    ensures left { MatchOption result ((table.new ≡ table.old) × (order.new ≡ order.old)) (λ _. Tabled W.scale candidates.now capacity table.old table.new) }
{
    let knapsack = Knapsack::new(candidates, capacity, table.len())?;
    if order.len() < LONGEST {
        return None;
    }
    Some(knapsack.select(table, order))
}

#[cfg(test)]
mod tests;
