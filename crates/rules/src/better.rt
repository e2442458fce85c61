// Better-of-two: asks both rules, and keeps the first's pattern unless the second's is worth more.
ghost use Rattle.std.specs.Prelude.{◌≡◌, ◌≤◌, min, max, ◌++◌, length as size, take, drop, if◌then◌else◌, nat_lt};
ghost use Rattle.rules.specs.Layers.{EitherPatterns, better_named};
ghost use Rattle.rules.specs.BetterLaws.{better_laws};

use crate::best::{Best, ROWS};
use crate::rule::{Rule, admit, ask_admitted};
use layout::refusal::Refusal;
use layout::row::{BLANK, Row};
use layout::task::Task;

// Nothing compares layers, so no equality is derived.
#[derive(Drop)]
pub struct BetterOfTwo<F, S> {
    first: F,
    second: S,
}

// Leaves the first's pattern, which stands in the rows, unless the second's is worth more: that one is copied over it.
fn keep_better(first: Best, rows: &mut [Row], second: Best, other: &[Row]) -> Best
    requires { (4096 ≤ size rows.old) × (4096 ≤ size other.now) }
    ensures answer { result ≡ (if nat_lt first.worth second.worth then second else first) }
    ensures rows { rows.new ≡ (if nat_lt first.worth second.worth then take 4096 other.now ++ drop 4096 rows.old else rows.old) }
{
    if second.worth <= first.worth {
        return first;
    }
    rows[..ROWS].copy_from_slice(&other[..ROWS]);
    second
}

impl<F: Rule, S: Rule> BetterOfTwo<F, S> {
    pub fn new(first: F, second: S) -> BetterOfTwo<F, S>
        ensures { (result.first ≡ first) × (result.second ≡ second) }
    {
        BetterOfTwo { first, second }
    }
}

impl<F: Rule, S: Rule> Rule for BetterOfTwo<F, S> {
    ghost patterns = { λ s. EitherPatterns (F.Rule.patterns s.first) (S.Rule.patterns s.second) };

    ghost named = { λ s. better_named (F.Rule.named s.first) (S.Rule.named s.second) };

    ghost reach = { λ s. min (F.Rule.reach s.first) (S.Rule.reach s.second) };

    ghost stages = { λ s. max (F.Rule.stages s.first) (S.Rule.stages s.second) };

    ghost saw = { λ s. min (F.Rule.saw s.first) (S.Rule.saw s.second) };

    ghost lawful = { λ s. better_laws (F.Rule.lawful s.first) (S.Rule.lawful s.second) };

    fn reach(&self) -> u16 {
        self.first.reach().min(self.second.reach())
    }

    // Each rule is asked once; the second writes to rows of its own, since those lent cannot hold two patterns.
    fn best(&self, task: &Task, work: &mut [u64], rows: &mut [Row]) -> Result<Best, Refusal> {
        admit(self.reach(), task, work.len(), rows.len())?;
        let mut other = [BLANK; ROWS];
        let second = ask_admitted(&self.second, task, work, &mut other);
        let first = ask_admitted(&self.first, task, work, rows);
        Ok(keep_better(first, rows, second, &other))
    }
}
