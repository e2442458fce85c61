// What the two rules share: the pattern is laid to the front of the first 4,096 rows, and the others of these are blanked.
ghost use Rattle.std.specs.Prelude.{◌≡◌, ◌≤◌, List, length as size};
ghost use Rattle.layout.specs.declared.row.Row.{Row};
ghost use Rattle.layout.specs.Models.{model};
ghost use Rattle.layout.specs.Tasks.{Model, worth};
ghost use Rattle.rules.specs.Answers.{Wrote};
ghost use Rattle.engines.specs.Writing.{Written};

use crate::stacking::Laid;
use layout::row::Row;
use layout::task::Task;
use rules::best::{Best, ROWS};
use rules::rule::blank_from;

// A rule that lays one pattern for each task. Work memory and rows are lent as slices, as they are to `best`, so their lengths are said.
pub(crate) trait Staging {
    ghost pattern: { Model → List Row };

    // Writes the pattern to the front of the rows.
    fn lay(task: &Task, work: &mut [u64], rows: &mut [Row]) -> Laid
        requires words { 8000 ≤ size work.old }
        requires places { size rows.old ≡ 4096 }
        ensures written { Written (pattern (model task.now)) rows.new result.rows }
        ensures worth { result.worth ≡ worth (model task.now) (pattern (model task.now)) };
}

// Writes the pattern to the front of the first 4,096 rows, and blanks the others of these. Their number is at most 4,096, so `as` loses nothing of it.
pub(crate) fn write_pattern<S: Staging>(task: &Task, work: &mut [u64], rows: &mut [Row]) -> Best
    requires words { 8000 ≤ size work.old }
    requires places { 4096 ≤ size rows.old }
    ensures { Wrote (model task.now) (S.pattern (model task.now)) rows.old rows.new result }
{
    let first = &mut rows[..ROWS];
    let laid = S::lay(task, work, first);
    blank_from(first, laid.rows);
    Best {
        rows: laid.rows as u16,
        worth: laid.worth,
    }
}
