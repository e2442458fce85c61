// The first sequence of greatest worth, read off a table of greatest worths.
ghost use Rattle.std.specs.Prelude.{◌≡◌, ◌+◌, ◌<◌, ◌≤◌, [], All, MatchOption, length, take, drop};
ghost use Rattle.std.specs.List.{position_from};
ghost use Rattle.choosing.specs.Turns.{Begins, Offerable, reaches_goal};
ghost use Rattle.choosing.specs.Calls.{Selected, Tabled};
ghost use Rattle.choosing.specs.Choice.{first};
ghost use Rattle.choosing.specs.Limits.{Filled};

use crate::knapsack::Knapsack;
use crate::worth::Worth;
use crate::{Candidate, Selection};

impl<W: Worth> Candidate<W> {
    // Whether it fits and offers at least so much.
    fn reaches(&self, table: &[W], capacity: usize, goal: W) -> bool
        requires { Offerable W.scale W.within table.now capacity self.now }
        ensures { result ≡ reaches_goal W.scale table.now capacity goal self.now }
    {
        self.offer(table, capacity)
            .is_some_and(|sum| !sum.less(goal))
    }
}

impl<W: Worth> Knapsack<'_, W> {
    // The position of the first candidate that fits and offers at least so much.
    fn first_reaching(&self, table: &[W], capacity: usize, goal: W) -> Option<usize>
        requires { All (Offerable W.scale W.within table.now capacity) self.now.candidates.now }
        ensures { result ≡ position_from (reaches_goal W.scale table.now capacity goal) 0 self.now.candidates.now }
    {
        self.candidates
            .iter()
            .position(|c| c.reaches(table, capacity, goal))
    }

    // The position of the candidate that the first sequence of greatest worth begins with, or None where nothing fits.
    fn pick(&self, table: &[W], left: usize) -> Option<usize>
        requires room { left < length table.now }
        requires limit { left ≤ self.now.capacity }
        requires filled { Filled W.scale table.now self.now.candidates.now (left + 1) }
        ensures { MatchOption result ((first W.scale self.now.candidates.now left).order ≡ []) (λ k. Begins W.scale self.now.candidates.now left k) }
    {
        self.first_reaching(table, left, table[left])
    }

    // Writes the first sequence of greatest worth to the front of `order`, and answers how long it is.
    #[tactic(auto, using(crate::proofs::Filling::size_read))]
    fn walk(&self, table: &[W], order: &mut [usize]) -> usize
        requires room { self.now.capacity < length table.now }
        requires enough { 64 ≤ length order.old }
        requires filled { Filled W.scale table.now self.now.candidates.now (self.now.capacity + 1) }
        ensures computed { take result order.new ≡ (first W.scale self.now.candidates.now self.now.capacity).order }
        ensures short { result ≤ 64 }
        ensures beyond { drop result order.new ≡ drop result order.old }
    {
        // The count is the answer: the walk ends where nothing fits any more, which a `for` over the places would not say.
        let mut count = 0;
        let mut left = self.capacity;
        while let Some(k) = self.pick(table, left) {
            order[count] = k;
            count += 1;
            left -= self.candidates[k].size;
        }
        count
    }

    // Fills the table, and writes the first sequence of greatest worth to the front of `order`.
    pub(crate) fn select(&self, table: &mut [W], order: &mut [usize]) -> Selection<W>
        requires room { self.now.capacity < length table.old }
        requires enough { 64 ≤ length order.old }
        ensures selected { Selected W.scale self.now.candidates.now self.now.capacity result order.old order.new }
        ensures tabled { Tabled W.scale self.now.candidates.now self.now.capacity table.old table.new }
    {
        let worth = self.fill(table);
        let count = self.walk(table, order);
        Selection { count, worth }
    }
}
