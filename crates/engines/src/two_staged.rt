// The two-staged rule: strips one above the other, each with pieces side by side.
ghost use Rattle.patterns.specs.Named.{two_staged_pattern};
ghost use Rattle.patterns.specs.Sets.{TwoStagedSet};
ghost use Rattle.patterns.specs.Strips.{by_value};
ghost use Rattle.patterns.proofs.NamedLaws.{two_staged_laws};

use crate::filling::General;
use crate::numbers::Numbers;
use crate::segment::Segment;
use crate::stacking::{Laid, lay_segment};
use crate::staging::{Staging, write_pattern};
use layout::panel::GREATEST_SIDE;
use layout::refusal::Refusal;
use layout::row::Row;
use layout::task::Task;
use rules::best::Best;
use rules::rule::{Rule, admit};

#[derive(Clone, Copy, Debug, PartialEq, Eq)]
pub struct TwoStaged;

impl Staging for TwoStaged {
    ghost pattern = { two_staged_pattern by_value };

    fn lay(task: &Task, work: &mut [u64], rows: &mut [Row]) -> Laid {
        let numbers = Numbers::of(task);
        let plate = Segment {
            number: 0,
            x: 0,
            length: numbers.length,
        };
        let table = work.first_chunk_mut().unwrap();
        lay_segment::<General>(&numbers, plate, table, rows)
    }
}

// The two rules share numbers and steps, but each impl has its own: a rule's members are what a reader looks up of it.
impl Rule for TwoStaged {
    ghost patterns = { λ _. TwoStagedSet };

    ghost named = { λ _. two_staged_pattern by_value };

    ghost reach = { λ _. 3200 };

    ghost stages = { λ _. 3 };

    ghost saw = { λ _. 0 };

    ghost lawful = { λ s. two_staged_laws };

    fn reach(&self) -> u16 {
        GREATEST_SIDE
    }

    fn best(&self, task: &Task, work: &mut [u64], rows: &mut [Row]) -> Result<Best, Refusal> {
        admit(GREATEST_SIDE, task, work.len(), rows.len())?;
        Ok(write_pattern::<TwoStaged>(task, work, rows))
    }
}
