// The table of greatest worths, filled one capacity after the other.
ghost use Rattle.std.specs.Prelude.{◌≡◌, ◌<◌, ◌≤◌, All, fold, length, map};
ghost use Rattle.choosing.specs.Choice.{most};
ghost use Rattle.choosing.specs.Recursion.{larger};
ghost use Rattle.choosing.specs.Turns.{Offerable, offer_of, offer_or_nothing};
ghost use Rattle.choosing.specs.Limits.{Filled};
ghost use Rattle.choosing.specs.Calls.{GreatestWorth, Tabled};

use crate::Candidate;
use crate::knapsack::Knapsack;
use crate::worth::Worth;

impl<W: Worth> Candidate<W> {
    // The sum of its worth and of what the table has for the room that it leaves, or None where it does not fit.
    pub(crate) fn offer(&self, table: &[W], capacity: usize) -> Option<W>
        requires { Offerable W.scale W.within table.now capacity self.now }
        ensures { result ≡ offer_of W.scale table.now capacity self.now }
    {
        let left = capacity.checked_sub(self.size)?;
        Some(sum_of(self.worth, table[left]))
    }
}

// The sum of two worths, where it is one of at most 4,096 pieces.
fn sum_of<W: Worth>(one: W, other: W) -> W
    requires { ∥ W.within 4096 (W.scale.plus one other) ∥₁ }
    ensures { result ≡ W.scale.plus one other }
{
    one.plus(other)
}

// The larger of two worths: `max`, in the order that a worth has.
fn larger_of<W: Worth>(one: W, other: W) -> W
    ensures { result ≡ larger W.scale one other }
{
    if one.less(other) { other } else { one }
}

// The table is lent and grows from call to call, so what it holds is said in each clause, and not in a type.
impl<W: Worth> Knapsack<'_, W> {
    // The largest of what the candidates offer at a capacity, where what does not fit offers nothing.
    fn largest_offer(&self, table: &[W], capacity: usize) -> W
        requires { All (Offerable W.scale W.within table.now capacity) self.now.candidates.now }
        ensures { result ≡ fold (larger W.scale) W.scale.nothing (map (offer_or_nothing W.scale table.now capacity) self.now.candidates.now) }
    {
        self.candidates
            .iter()
            .map(|c| c.offer(table, capacity).unwrap_or(W::nothing()))
            .fold(W::nothing(), larger_of)
    }

    // The greatest worth at one capacity, from a table that has it for each smaller one.
    fn greatest(&self, table: &[W], capacity: usize) -> W
        requires room { capacity ≤ length table.now }
        requires limit { capacity ≤ self.now.capacity }
        requires filled { Filled W.scale table.now self.now.candidates.now capacity }
        ensures { result ≡ most W.scale self.now.candidates.now capacity }
    {
        self.largest_offer(table, capacity)
    }

    // Writes the greatest worth at each capacity up to its own, and answers the last.
    pub(crate) fn fill(&self, table: &mut [W]) -> W
        requires { self.now.capacity < length table.old }
        ensures greatest { GreatestWorth W.scale self.now.candidates.now self.now.capacity result }
        ensures tabled { Tabled W.scale self.now.candidates.now self.now.capacity table.old table.new }
    {
        // By index: it is the capacity, and each entry is found from those before it.
        for capacity in 0..=self.capacity {
            table[capacity] = self.greatest(table, capacity);
        }
        table[self.capacity]
    }
}
