// What the chooser chooses among a segment's strips, or a strip's pieces.
ghost use Rattle.std.specs.Prelude.{◌≡◌, ◌≤◌, length as size};
ghost use Rattle.std.specs.List.{All};
ghost use Rattle.choosing.specs.Choice.{first, most};
ghost use Rattle.choosing.specs.Limits.{Fair};
ghost use Rattle.choosing.specs.Plain.{plain, PlainWithin};
ghost use Rattle.patterns.specs.Numbers.{no_piece};
ghost use Rattle.patterns.specs.Strips.{at};
ghost use Rattle.engines.specs.Writing.{Known};

use crate::counting::MOST_NUMBERS;
use arrayvec::ArrayVec;
use choosing::{Candidate, choose, greatest_worth};
use patterns::Oriented;

// The chooser's table: a worth for each capacity up to 3,200. It is lent apart from the numbers, since one table serves fewer and fewer numbers.
pub(crate) const TABLE: usize = 3_201;

pub(crate) type Table = [u64; TABLE];

// The chosen numbers in order, and what they are worth.
#[derive(Drop)]
pub(crate) struct Choice {
    pub(crate) numbers: ArrayVec<Oriented, MOST_NUMBERS>,
    pub(crate) worth: u64,
}

// The numbers at these positions.
fn at_positions(numbers: &[Oriented], positions: &[usize]) -> ArrayVec<Oriented, MOST_NUMBERS>
    requires known { All (Known numbers.now) positions.now }
    requires few { size positions.now ≤ 64 }
    ensures { result.items ≡ at no_piece numbers.now positions.now }
{
    let mut chosen = ArrayVec::new();
    for k in positions {
        chosen.push(numbers[*k]);
    }
    chosen
}

// The first sequence of greatest worth of these numbers, each of which stands at the place of its candidate. The chooser takes candidates alone and writes
// positions to lent places, so it is wrapped here.
pub(crate) fn chosen(
    numbers: &[Oriented],
    candidates: &[Candidate<u64>],
    capacity: u16,
    table: &mut Table,
) -> Choice
    requires each { size candidates.now ≡ size numbers.now }
    requires fair { Fair plain PlainWithin 64 candidates.now }
    requires capacity { capacity ≤ 3200 }
    ensures numbers { result.numbers.items ≡ at no_piece numbers.now (first plain candidates.now capacity).order }
    ensures worth { result.worth ≡ most plain candidates.now capacity }
{
    let mut order = [0; MOST_NUMBERS];
    let selection = choose(candidates, usize::from(capacity), table, &mut order).unwrap();
    Choice {
        numbers: at_positions(numbers, &order[..selection.count]),
        worth: selection.worth,
    }
}

// The greatest worth of a sequence of these candidates. Not inlined: the chooser's inner loop slows down by a quarter where a caller happens to place it badly.
#[inline(never)]
pub(crate) fn worth_within(candidates: &[Candidate<u64>], capacity: u16, table: &mut Table) -> u64
    requires fair { Fair plain PlainWithin 64 candidates.now }
    requires capacity { capacity ≤ 3200 }
    ensures { result ≡ most plain candidates.now capacity }
{
    greatest_worth(candidates, usize::from(capacity), table).unwrap()
}
