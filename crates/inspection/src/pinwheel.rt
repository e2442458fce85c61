// The pinwheel, a plate that comes apart in no number of stages.
ghost use Rattle.std.specs.Prelude.{◌≡◌};
ghost use Rattle.inspection.specs.Pinwheel.{NeverApart, row_at, turning, pinwheel_kinds, pinwheel_rows};

use layout::panel::Panel;
use layout::row::{BLANK, Row};

// A panel that may be turned.
fn turnable(length: u16, width: u16) -> Panel
    ensures { result ≡ turning length width }
{
    Panel {
        length,
        width,
        may_turn: true,
    }
}

// Its kinds, 100x50 and 50x50.
fn wheel_kinds() -> [Panel; 2]
    ensures { result ≡ pinwheel_kinds }
{
    [turnable(100, 50), turnable(50, 50)]
}

// A piece of some kind at x and y.
fn piece(kind: u8, turned: u8, x: u16, y: u16) -> Row
    ensures { result ≡ row_at kind turned x y }
{
    Row {
        kind,
        turned,
        x,
        y,
        ..BLANK
    }
}

// Its rows: the four around, and the one in the middle.
fn wheel_rows() -> [Row; 5]
    ensures { result ≡ pinwheel_rows }
{
    [
        piece(0, 0, 0, 0),
        piece(0, 1, 100, 0),
        piece(0, 0, 50, 100),
        piece(0, 1, 0, 50),
        piece(1, 0, 50, 50),
    ]
}

// The kinds and the rows of the pinwheel. Its plate is 150x150: four pieces lie around a fifth, and no cut divides them.
pub fn pinwheel() -> ([Panel; 2], [Row; 5])
    ensures kinds { result.0 ≡ pinwheel_kinds }
    ensures rows { result.1 ≡ pinwheel_rows }
    ensures never { NeverApart }
{
    (wheel_kinds(), wheel_rows())
}
