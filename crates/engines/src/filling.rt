// What a strip of a number holds: what it is worth, and its pieces.
ghost use Rattle.std.specs.Prelude.{◌≡◌, ◌≤◌, map, length as size};
ghost use Rattle.patterns.specs.Counting.{Counts};
ghost use Rattle.patterns.specs.Strips.{by_along, by_value};
ghost use Rattle.engines.specs.Fillings.{Filled, OfAll, OfOne, strip_of};

use crate::choice::{Table, chosen, worth_within};
use crate::counting::MOST_NUMBERS;
use crate::numbers::Numbers;
use arrayvec::ArrayVec;
use choosing::Candidate;
use patterns::Oriented;

// How strips are filled.
pub(crate) trait Filling {
    ghost filled: { Filled };

    // What the strip of q is worth.
    fn worth(numbers: &Numbers, q: Oriented, table: &mut Table) -> u64
        requires { Counts numbers.now.length numbers.now.width q }
        ensures { result ≡ (strip_of filled numbers.now.length numbers.now.list.items q).worth };

    // The pieces of the strip of q, from left to right.
    fn pieces(numbers: &Numbers, q: Oriented, table: &mut Table) -> ArrayVec<Oriented, MOST_NUMBERS>
        requires { Counts numbers.now.length numbers.now.width q }
        ensures { result.items ≡ (strip_of filled numbers.now.length numbers.now.list.items q).pieces };
}

// The first sequence of greatest worth of the numbers that are no wider.
pub(crate) struct General;

// As many pieces of the number itself as the length holds.
pub(crate) struct Uniform;

// The numbers as candidates for a strip.
fn offered(numbers: &[Oriented]) -> ArrayVec<Candidate<u64>, MOST_NUMBERS>
    requires { size numbers.now ≤ 64 }
    ensures { result.items ≡ map (by_along by_value) numbers.now }
{
    let mut candidates = ArrayVec::new();
    for o in numbers {
        candidates.push(Candidate {
            size: usize::from(o.along),
            worth: u64::from(o.value),
        });
    }
    candidates
}

impl Filling for General {
    ghost filled = { OfAll };

    fn worth(numbers: &Numbers, q: Oriented, table: &mut Table) -> u64 {
        let narrow = numbers.no_wider(q.across);
        worth_within(&offered(&narrow), numbers.length, table)
    }

    fn pieces(
        numbers: &Numbers,
        q: Oriented,
        table: &mut Table,
    ) -> ArrayVec<Oriented, MOST_NUMBERS> {
        let narrow = numbers.no_wider(q.across);
        chosen(&narrow, &offered(&narrow), numbers.length, table).numbers
    }
}

impl Filling for Uniform {
    ghost filled = { OfOne };

    #[tactic(auto, using(patterns::proofs::Candidates::times_is))]
    fn worth(numbers: &Numbers, q: Oriented, _table: &mut Table) -> u64 {
        u64::from(numbers.length / q.along) * u64::from(q.value)
    }

    fn pieces(
        numbers: &Numbers,
        q: Oriented,
        _table: &mut Table,
    ) -> ArrayVec<Oriented, MOST_NUMBERS> {
        let mut pieces = ArrayVec::from_array_in((), [q; MOST_NUMBERS]);
        pieces.truncate(usize::from(numbers.length / q.along));
        pieces
    }
}
