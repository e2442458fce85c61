// The three-staged rule: at most two segments side by side, each of strips that hold one number.
ghost use Rattle.patterns.specs.Named.{three_staged_pattern};
ghost use Rattle.patterns.specs.Sets.{ThreeStagedSet};
ghost use Rattle.patterns.specs.Strips.{by_value};
ghost use Rattle.patterns.proofs.NamedLaws.{three_staged_laws};

use crate::dividing::{dividing, left_of, right_of, segment_worths};
use crate::filling::Uniform;
use crate::numbers::Numbers;
use crate::stacking::{Laid, lay_segment};
use crate::staging::{Staging, write_pattern};
use layout::panel::GREATEST_SIDE;
use layout::refusal::Refusal;
use layout::row::Row;
use layout::task::Task;
use rules::best::Best;
use rules::rule::{Rule, admit};

#[derive(Clone, Copy, Debug, PartialEq, Eq)]
pub struct ThreeStaged;

impl Staging for ThreeStaged {
    ghost pattern = { three_staged_pattern by_value };

    fn lay(task: &Task, work: &mut [u64], rows: &mut [Row]) -> Laid {
        let numbers = Numbers::of(task);
        let length = numbers.length;
        let (table, rest) = work.split_first_chunk_mut().unwrap();
        let worths = rest.first_chunk_mut().unwrap();
        segment_worths(&numbers, table, worths);
        let c = dividing(worths, length);
        let left = lay_segment::<Uniform>(&numbers, left_of(c), table, rows);
        let segment = right_of(c, length, left.rows);
        let right = lay_segment::<Uniform>(&numbers, segment, table, &mut rows[left.rows..]);
        Laid {
            rows: left.rows + right.rows,
            worth: left.worth + right.worth,
        }
    }
}

impl Rule for ThreeStaged {
    ghost patterns = { λ _. ThreeStagedSet };

    ghost named = { λ _. three_staged_pattern by_value };

    ghost reach = { λ _. 3200 };

    ghost stages = { λ _. 3 };

    ghost saw = { λ _. 0 };

    ghost lawful = { λ s. three_staged_laws };

    fn reach(&self) -> u16 {
        GREATEST_SIDE
    }

    fn best(&self, task: &Task, work: &mut [u64], rows: &mut [Row]) -> Result<Best, Refusal> {
        admit(GREATEST_SIDE, task, work.len(), rows.len())?;
        Ok(write_pattern::<ThreeStaged>(task, work, rows))
    }
}
