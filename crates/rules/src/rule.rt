// The trait of cutting rules, and what each rule's `best` begins and ends with.
ghost use Rattle.std.specs.Prelude.{◌≡◌, ℕ, ◌-◌, ◌≤◌, List, ◌++◌, map, length as size, take, drop, replicate, OnOk};
ghost use Rattle.layout.specs.declared.row.Row.{Row};
ghost use Rattle.layout.specs.Models.{model};
ghost use Rattle.layout.specs.Pieces.{blank};
ghost use Rattle.layout.specs.Refusals.{Answered};
ghost use Rattle.layout.specs.Tasks.{Model, Shape};
ghost use Rattle.rules.specs.Answers.{BestCause, Admitted, Wrote, Leaves};
ghost use Rattle.rules.specs.Rules.{RuleLaws};

use crate::best::{Best, ROWS, WORDS};
use layout::change::{Change, change_all};
use layout::refusal::Refusal;
use layout::row::{BLANK, Row};
use layout::task::Task;

pub trait Rule {
    // the patterns of a task without its values
    ghost patterns: { Self → Shape → List Row → Type 0 };

    // the named pattern of a task
    ghost named: { Self → Model → List Row };

    // the longest side that it works on
    ghost reach: { Self → ℕ };

    // in how many stages each pattern comes apart, and at which saw width
    ghost stages: { Self → ℕ };

    ghost saw: { Self → ℕ };

    fn reach(&self) -> u16
        ensures { result ≡ reach self.now };

    // Writes the named pattern of the task to the rows, and answers its number of rows and its worth. What the work memory holds
    // afterwards is free.
    fn best(&self, task: &Task, work: &mut [u64], rows: &mut [Row]) -> Result<Best, Refusal>
        ensures answer { Answered (BestCause (reach self.now) (model task.now) (size work.old) (size rows.old)) result }
        ensures rows { Leaves (model task.now) (named self.now (model task.now)) rows.old rows.new result };

    // what whoever adds a rule shows of it
    ghost lawful: { (s : Self) → RuleLaws (patterns s) (named s) (reach s) (stages s) (saw s) };
}

// The refusal of `best`, if any, for a rule of this reach that is lent so many words and rows.
pub fn admit(reach: u16, task: &Task, words: usize, rows: usize) -> Result<(), Refusal>
    ensures answer { Answered (BestCause reach (model task.now) words rows) result }
    ensures admitted { OnOk result (Admitted reach (model task.now) words rows) }
{
    if words < WORDS || rows < ROWS {
        return Err(Refusal::Room);
    }
    if !task.within(reach) {
        return Err(Refusal::Reach);
    }
    Ok(())
}

// Asks a rule for a task that it admits, so that it cannot refuse. Task, work memory and rows are not made one value: each layer asks below with
// another task, by the call of the trait, which takes the three apart.
pub(crate) fn ask_admitted<R: Rule>(
    rule: &R,
    task: &Task,
    work: &mut [u64],
    rows: &mut [Row],
) -> Best
    requires { Admitted (R.Rule.reach rule.now) (model task.now) (size work.old) (size rows.old) }
    ensures { Wrote (model task.now) (R.Rule.named rule.now (model task.now)) rows.old rows.new result }
{
    rule.best(task, work, rows).unwrap()
}

// Blanks the rows from `start` on. A rule that has written its pattern to the front of the first 4,096 rows ends with this.
pub fn blank_from(rows: &mut [Row], start: usize)
    ensures { rows.new ≡ take start rows.old ++ replicate (size rows.old - start) blank }
{
    let start = start.min(rows.len());
    rows[start..].fill(BLANK);
}

// Changes the first rows, those of a pattern, and leaves the others. A count beyond the rows means all of them.
pub fn change_first<C: Change<Row>>(rows: &mut [Row], count: usize, by: &C)
    ensures { rows.new ≡ map (C.Change.changed by.now) (take count rows.old) ++ drop count rows.old }
{
    let count = count.min(rows.len());
    change_all(&mut rows[..count], by);
}
