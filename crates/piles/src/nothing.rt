// The rule that cuts nothing: its one pattern is the empty list.
ghost use Rattle.std.specs.Prelude.{◌≡◌, ◌≤◌, min, [], length as size};
ghost use Rattle.rules.specs.Answers.{written};
ghost use Rattle.piles.specs.Nothing.{OnlyEmptyList, no_rows};
ghost use Rattle.piles.specs.NothingLaws.{nothing_laws};

use layout::panel::GREATEST_SIDE;
use layout::refusal::Refusal;
use layout::row::Row;
use layout::task::Task;
use rules::best::{Best, ROWS};
use rules::rule::{Rule, admit, blank_from};

#[derive(Clone, Copy, Debug, PartialEq, Eq)]
pub struct Nothing {
    reach: u16,
    ghost far: { reach ≤ 3200 },
}

// Writes the empty pattern: 4,096 blank rows.
fn write_nothing(rows: &mut [Row])
    requires { 4096 ≤ size rows.old }
    ensures { rows.new ≡ written [] rows.old }
{
    blank_from(&mut rows[..ROWS], 0);
}

impl Nothing {
    // The rule with a reach of its own; what is above 3,200 counts as 3,200.
    pub fn new(reach: u16) -> Nothing
        ensures { result.reach ≡ min reach 3200 }
    {
        Nothing {
            reach: reach.min(GREATEST_SIDE),
        }
    }
}

impl Rule for Nothing {
    ghost patterns = { λ _. OnlyEmptyList };

    ghost named = { λ _. no_rows };

    ghost reach = { λ s. s.reach };

    ghost stages = { λ _. 3 };

    ghost saw = { λ _. 0 };

    ghost lawful = { λ s. nothing_laws s.reach s.far };

    fn reach(&self) -> u16 {
        self.reach
    }

    fn best(&self, task: &Task, work: &mut [u64], rows: &mut [Row]) -> Result<Best, Refusal> {
        admit(self.reach, task, work.len(), rows.len())?;
        write_nothing(rows);
        Ok(Best { rows: 0, worth: 0 })
    }
}
