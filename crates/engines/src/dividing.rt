// The dividing position of the three-staged rule.
ghost use Rattle.std.specs.Prelude.{◌≡◌, ℕ, ◌+◌, ◌<◌, ◌≤◌, slice_index};
ghost use Rattle.engines.specs.Fillings.{uniform_worth, left_side, right_side};
ghost use Rattle.engines.specs.Positions.{LowestGreatest, both_sides};

use crate::choice::Table;
use crate::filling::Uniform;
use crate::numbers::Numbers;
use crate::segment::Segment;
use crate::stacking::segment_worth;

// The segment from 0 to the dividing position c.
pub(crate) fn left_of(c: u16) -> Segment
    ensures { result ≡ left_side c }
{
    Segment {
        number: 0,
        x: 0,
        length: c,
    }
}

// The segment from c to the end of the plate. It has number 0 where the left one has no rows.
pub(crate) fn right_of(c: u16, length: u16, left_rows: usize) -> Segment
    requires { c ≤ length }
    ensures { result ≡ right_side c length left_rows }
{
    Segment {
        number: u8::from(left_rows > 0),
        x: c,
        length: length - c,
    }
}

// Writes the greatest worth of a segment of each length up to that of the plate, at the place of the length: what is written
// through a zipped `iter_mut` cannot be proved.
pub(crate) fn segment_worths(numbers: &Numbers, table: &mut Table, worths: &mut Table)
    ensures { (c : ℕ) → c < numbers.now.length + 1 → slice_index worths.new c ≡ uniform_worth c numbers.now.width numbers.now.list.items }
{
    for length in 0..=numbers.length {
        worths[usize::from(length)] = segment_worth::<Uniform>(numbers, length, table);
    }
}

// What the segments on both sides of the dividing position c are worth together.
fn both(worths: &Table, length: u16, c: u16) -> u64
    requires within { c ≤ length }
    requires along { length ≤ 3200 }
    requires small { (j : ℕ) → j < length + 1 → slice_index worths.now j ≤ 1_000_000_000_000 }
    ensures { result ≡ both_sides worths.now length c }
{
    worths[usize::from(c)] + worths[usize::from(length - c)]
}

// The lowest dividing position of greatest sum. This is a loop, since what is known of `max_by_key` and `min_by_key` leaves open which of equals they answer.
pub(crate) fn dividing(worths: &Table, length: u16) -> u16
    requires along { length ≤ 3200 }
    requires small { (j : ℕ) → j < length + 1 → slice_index worths.now j ≤ 1_000_000_000_000 }
    ensures { LowestGreatest (both_sides worths.now length) length result }
{
    let mut best = 0;
    for c in 1..=length {
        if both(worths, length, best) < both(worths, length, c) {
            best = c;
        }
    }
    best
}
