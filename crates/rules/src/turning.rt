// Turning: asks below with all sides exchanged, and exchanges x and y of each row.
ghost use Rattle.std.specs.Prelude.{◌≡◌};
ghost use Rattle.rules.specs.Layers.{exchanged_row, TurningPatterns, turning_named};
ghost use Rattle.rules.specs.TurningLaws.{turning_laws};

use crate::best::Best;
use crate::rule::{Rule, admit, ask_admitted, change_first};
use layout::change::Change;
use layout::refusal::Refusal;
use layout::row::Row;
use layout::task::Task;

// The corner of a row with x and y exchanged.
#[derive(Clone, Copy, Debug, PartialEq, Eq)]
struct Exchange;

impl Change<Row> for Exchange {
    ghost changed = { λ _. exchanged_row };

    fn apply(&self, r: Row) -> Row {
        Row {
            x: r.y,
            y: r.x,
            ..r
        }
    }
}

// Turning, trimming and the saw layer are three rules, and not one over a trait of changes: task, rows, reach, stages and saw width each change in
// another way, so that trait would have as many members as `Rule`. What they share is `change_first`, `ask_admitted` and the lemma `layer_laws`.
// Nothing compares layers, so no equality is derived.
#[derive(Drop)]
pub struct Turning<R> {
    below: R,
}

impl<R: Rule> Turning<R> {
    pub fn new(below: R) -> Turning<R>
        ensures { result.below ≡ below }
    {
        Turning { below }
    }
}

impl<R: Rule> Rule for Turning<R> {
    ghost patterns = { λ s. TurningPatterns (R.Rule.patterns s.below) };

    ghost named = { λ s. turning_named (R.Rule.named s.below) };

    ghost reach = { λ s. R.Rule.reach s.below };

    ghost stages = { λ s. R.Rule.stages s.below };

    ghost saw = { λ s. R.Rule.saw s.below };

    ghost lawful = { λ s. turning_laws (R.Rule.lawful s.below) };

    fn reach(&self) -> u16 {
        self.below.reach()
    }

    fn best(&self, task: &Task, work: &mut [u64], rows: &mut [Row]) -> Result<Best, Refusal> {
        admit(self.reach(), task, work.len(), rows.len())?;
        let best = ask_admitted(&self.below, &task.exchanged(), work, rows);
        change_first(rows, usize::from(best.rows), &Exchange);
        Ok(best)
    }
}
