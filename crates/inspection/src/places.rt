// Where the pieces of a list of rows lie, and how they lie to a part.
ghost use Rattle.std.specs.Prelude.{◌≡◌, ◌+◌, ◌<◌, ◌↔◌, IsTrue, length as size};
ghost use Rattle.layout.specs.Apart.{Inside, plate};
ghost use Rattle.layout.specs.Places.{place_of};
ghost use Rattle.inspection.specs.Directions.{seen, HeldIn};

use layout::panel::Panel;
use layout::rect::{Rect, Span};
use layout::row::Row;

// The direction of the plate that the cuts of a stage divide. One `match` takes it apart, in `view`, and all else speaks of what is seen.
#[derive(Clone, Copy, Debug, PartialEq, Eq)]
pub(crate) enum Direction {
    Length,
    Width,
}

// The extent of some size that begins at `from`. The sum is made in 32 bits, so that it is right for every two numbers.
fn span(from: u16, size: u16) -> Span
    ensures { (result.from ≡ from) × (result.to ≡ from + size) }
{
    Span {
        from: u32::from(from),
        to: u32::from(from) + u32::from(size),
    }
}

// The part that a plate is before it is cut.
pub(crate) fn whole_plate(length: u16, width: u16) -> Rect
    ensures { result ≡ plate length width }
{
    Rect {
        along: span(0, length),
        across: span(0, width),
    }
}

// The place of a row's piece.
pub(crate) fn place(kinds: &[Panel], row: Row) -> Rect
    requires { row.kind < size kinds.now }
    ensures { result ≡ place_of kinds.now row }
{
    let kind = kinds[usize::from(row.kind)];
    Rect {
        along: span(row.x, kind.along_size(row.turned)),
        across: span(row.y, kind.across_size(row.turned)),
    }
}

// A rectangle with the direction at hand first.
pub(crate) fn view(direction: Direction, r: Rect) -> Rect
    ensures { result ≡ seen direction r }
{
    match direction {
        Direction::Length => r,
        Direction::Width => Rect {
            along: r.across,
            across: r.along,
        },
    }
}

// Whether a rectangle lies inside another.
fn inside(q: Rect, r: Rect) -> bool
    ensures { IsTrue result ↔ Inside q r }
{
    r.along.from <= q.along.from
        && q.along.to <= r.along.to
        && r.across.from <= q.across.from
        && q.across.to <= r.across.to
}

// The piece at a place with the direction at hand first, where the part holds it.
pub(crate) fn held(direction: Direction, part: Rect, place: Rect) -> Option<Rect>
    ensures { HeldIn direction part place result }
{
    let piece = view(direction, place);
    inside(piece, part).then_some(piece)
}
