// The strips that are chosen for a segment: what they are worth, and their rows.
ghost use Rattle.std.specs.Prelude.{◌≡◌, ◌+◌, ◌≤◌, map, length as size};
ghost use Rattle.choosing.specs.Plain.{plain};
ghost use Rattle.patterns.specs.Strips.{by_across, stack};
ghost use Rattle.engines.specs.Fillings.{stacked, strip_of, strips_of};
ghost use Rattle.engines.specs.Writing.{Written, side_rows};

use crate::choice::{Choice, Table, chosen, worth_within};
use crate::counting::MOST_NUMBERS;
use crate::filling::Filling;
use crate::laying::lay_strips;
use crate::numbers::Numbers;
use crate::segment::{Corner, Segment};
use arrayvec::ArrayVec;
use choosing::Candidate;
use layout::row::Row;

// How many rows were written, and what they are worth.
#[derive(Clone, Copy, Debug, PartialEq, Eq)]
pub(crate) struct Laid {
    pub(crate) rows: usize,
    pub(crate) worth: u64,
}

// The strip of each number as a candidate for the segment.
fn strips<F: Filling>(
    numbers: &Numbers,
    table: &mut Table,
) -> ArrayVec<Candidate<u64>, MOST_NUMBERS>
    ensures { result.items ≡ map by_across (map (strip_of F.filled numbers.now.length numbers.now.list.items) numbers.now.list.items) }
{
    let mut candidates = ArrayVec::new();
    for q in numbers.list.iter() {
        candidates.push(Candidate {
            size: usize::from(q.across),
            worth: F::worth(numbers, *q, table),
        });
    }
    candidates
}

// What the strips chosen for a segment of this length are worth.
pub(crate) fn segment_worth<F: Filling>(numbers: &Numbers, length: u16, table: &mut Table) -> u64
    requires { length ≤ numbers.now.length }
    ensures { result ≡ (stacked F.filled length numbers.now.width numbers.now.list.items).worth }
{
    let held = numbers.no_longer(length);
    worth_within(&strips::<F>(&held, table), held.width, table)
}

// The numbers whose strips are chosen for a segment, and what these are worth.
fn chosen_strips<F: Filling>(numbers: &Numbers, table: &mut Table) -> Choice
    ensures numbers { result.numbers.items ≡ strips_of F.filled numbers.now.length numbers.now.width numbers.now.list.items }
    ensures worth { result.worth ≡ (stack plain numbers.now.width (map (strip_of F.filled numbers.now.length numbers.now.list.items) numbers.now.list.items)).worth }
{
    let candidates = strips::<F>(numbers, table);
    chosen(&numbers.list, &candidates, numbers.width, table)
}

// Writes the strips chosen for a segment to the front of the rows.
pub(crate) fn lay_segment<F: Filling>(
    numbers: &Numbers,
    segment: Segment,
    table: &mut Table,
    rows: &mut [Row],
) -> Laid
    requires length { segment.length ≤ numbers.now.length }
    requires along { segment.x + segment.length ≤ 3200 }
    requires room { size (side_rows F.filled segment numbers.now.width numbers.now.list.items) ≤ size rows.old }
    ensures written { Written (side_rows F.filled segment numbers.now.width numbers.now.list.items) rows.new result.rows }
    ensures worth { result.worth ≡ (stacked F.filled segment.length numbers.now.width numbers.now.list.items).worth }
{
    let held = numbers.no_longer(segment.length);
    let choice = chosen_strips::<F>(&held, table);
    let lowest = Corner {
        segment: segment.number,
        strip: 0,
        x: segment.x,
        y: 0,
    };
    Laid {
        rows: lay_strips::<F>(&held, &choice.numbers, lowest, table, rows),
        worth: choice.worth,
    }
}
