// Trimming by t: asks below with a border of breadth t taken off the plate, and moves each row by t in x and y.
ghost use Rattle.std.specs.Prelude.{◌≡◌, ◌+◌, ◌≤◌, IfOk};
ghost use Rattle.layout.specs.Refusals.{Answered};
ghost use Rattle.rules.specs.Layers.{TrimmingPatterns, trimming_named, TrimCause};
ghost use Rattle.rules.specs.Sums.{pushed_row};
ghost use Rattle.rules.specs.TrimmingLaws.{trimming_laws};

use crate::best::Best;
use crate::rule::{Rule, admit, ask_admitted, change_first};
use layout::change::Change;
use layout::refusal::Refusal;
use layout::row::Row;
use layout::task::Task;

// The greatest trim.
pub const GREATEST_TRIM: u16 = 100;

// The corner of a row moved by so much in x and y.
#[derive(Clone, Copy, Debug, PartialEq, Eq)]
struct Shift(u16);

impl Change<Row> for Shift {
    ghost changed = { λ s. pushed_row s.0 };

    fn apply(&self, r: Row) -> Row {
        Row {
            x: r.x.saturating_add(self.0),
            y: r.y.saturating_add(self.0),
            ..r
        }
    }
}

// Nothing compares layers, so no equality is derived.
#[derive(Drop)]
pub struct Trimming<R> {
    trim: u16,
    below: R,
    ghost small: { trim ≤ 100 },
}

impl<R: Rule + Drop> Trimming<R> {
    // The layer above a rule, which it lets go of where it refuses.
    pub fn new(trim: u16, below: R) -> Result<Trimming<R>, Refusal>
        ensures answer { Answered (TrimCause trim) result }
        ensures layer { IfOk result (λ s. (s.trim ≡ trim) × (s.below ≡ below)) }
    {
        if trim > GREATEST_TRIM {
            return Err(Refusal::Setting);
        }
        Ok(Trimming { trim, below })
    }
}

impl<R: Rule> Rule for Trimming<R> {
    ghost patterns = { λ s. TrimmingPatterns s.trim (R.Rule.patterns s.below) };

    ghost named = { λ s. trimming_named s.trim (R.Rule.named s.below) };

    ghost reach = { λ s. R.Rule.reach s.below };

    ghost stages = { λ s. R.Rule.stages s.below + 1 };

    ghost saw = { λ s. R.Rule.saw s.below };

    ghost lawful = { λ s. trimming_laws s.trim (R.Rule.lawful s.below) };

    fn reach(&self) -> u16 {
        self.below.reach()
    }

    fn best(&self, task: &Task, work: &mut [u64], rows: &mut [Row]) -> Result<Best, Refusal> {
        admit(self.reach(), task, work.len(), rows.len())?;
        let best = ask_admitted(&self.below, &task.trimmed(self.trim), work, rows);
        change_first(rows, usize::from(best.rows), &Shift(self.trim));
        Ok(best)
    }
}
