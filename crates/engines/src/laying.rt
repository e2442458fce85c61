// The rows of a strip, and of strips one above the other.
ghost use Rattle.std.specs.Prelude.{◌≡◌, ◌+◌, ◌<◌, ◌≤◌, length as size};
ghost use Rattle.std.specs.List.{All};
ghost use Rattle.patterns.specs.Counting.{Counts};
ghost use Rattle.patterns.specs.Strips.{rows_of_strip, row};
ghost use Rattle.engines.specs.Writing.{Written, corner_above, strip_rows, sum_across, sum_along};

use crate::choice::Table;
use crate::filling::Filling;
use crate::numbers::Numbers;
use crate::segment::Corner;
use layout::row::Row;
use patterns::Oriented;

// The row of a piece of the strip in this corner.
fn row_of(o: &Oriented, corner: Corner, x: u16) -> Row
    ensures { result ≡ row corner.segment corner.strip corner.y x o.now }
{
    Row {
        kind: o.kind,
        turned: o.turned,
        segment: corner.segment,
        strip: corner.strip,
        spare: 0,
        x,
        y: corner.y,
    }
}

// The corner of the strip above the strip of q.
fn above(corner: Corner, q: &Oriented) -> Corner
    requires strip { corner.strip < 64 }
    requires across { corner.y + q.now.across ≤ 3200 }
    ensures { result ≡ corner_above corner q.now }
{
    Corner {
        strip: corner.strip + 1,
        y: corner.y + q.across,
        ..corner
    }
}

// Writes the pieces side by side, the first in the corner, to the front of the rows. By place: what is written through a zipped `iter_mut` cannot be proved.
fn lay_pieces(pieces: &[Oriented], corner: Corner, rows: &mut [Row])
    requires along { corner.x + sum_along pieces.now ≤ 3200 }
    requires room { size pieces.now ≤ size rows.old }
    ensures { Written (rows_of_strip corner.segment corner.strip corner.y corner.x pieces.now) rows.new (size pieces.now) }
{
    let mut x = corner.x;
    for (i, o) in pieces.iter().enumerate() {
        rows[i] = row_of(o, corner, x);
        x += o.along;
    }
}

// Writes the strips of these numbers one above the other to the front of the rows, and answers how many rows they have; so the end of what is written is counted.
pub(crate) fn lay_strips<F: Filling>(
    numbers: &Numbers,
    chosen: &[Oriented],
    lowest: Corner,
    table: &mut Table,
    rows: &mut [Row],
) -> usize
    requires counted { All (Counts numbers.now.length numbers.now.width) chosen.now }
    requires strips { lowest.strip + size chosen.now ≤ 64 }
    requires across { lowest.y + sum_across chosen.now ≤ 3200 }
    requires along { lowest.x + numbers.now.length ≤ 3200 }
    requires room { size (strip_rows F.filled lowest numbers.now.length numbers.now.list.items chosen.now) ≤ size rows.old }
    ensures { Written (strip_rows F.filled lowest numbers.now.length numbers.now.list.items chosen.now) rows.new result }
{
    let mut corner = lowest;
    let mut end = 0;
    for q in chosen {
        let pieces = F::pieces(numbers, *q, table);
        lay_pieces(&pieces, corner, &mut rows[end..]);
        end += pieces.len();
        corner = above(corner, q);
    }
    end
}
