// The numbers of a plate text as the fields of an inspected plate hold them. One that is too large for its field counts as the field's largest, which
// is beyond every limit.
ghost use Rattle.std.specs.Prelude.{◌≡◌, min, map, IfOk};
ghost use Rattle.plates.specs.Fits.{fitted_panel, fitted_row};

use crate::plate::{KindEntry, RowEntry};
use layout::panel::Panel;
use layout::row::Row;
use std::alloc::{AllocError, Global};

// A number in 16 bits. This function and the next are two, since no bound of std names the greatest number of a type.
pub(crate) fn wide(number: u32) -> u16
    ensures { result ≡ min number 65535 }
{
    u16::try_from(number).unwrap_or(u16::MAX)
}

// A number in 8 bits.
pub(crate) fn narrow(number: u32) -> u8
    ensures { result ≡ min number 255 }
{
    u8::try_from(number).unwrap_or(u8::MAX)
}

impl From<KindEntry> for Panel {
    ghost from_gives = { λ k p. p ≡ fitted_panel k };

    fn from(entry: KindEntry) -> Panel {
        Panel {
            length: wide(entry.length),
            width: wide(entry.width),
            may_turn: entry.may_turn,
        }
    }
}

impl From<RowEntry> for Row {
    ghost from_gives = { λ e r. r ≡ fitted_row e };

    fn from(entry: RowEntry) -> Row {
        Row {
            kind: narrow(entry.kind),
            turned: u8::from(entry.turned),
            segment: narrow(entry.segment),
            strip: narrow(entry.strip),
            spare: u8::from(entry.spare),
            x: wide(entry.x),
            y: wide(entry.y),
        }
    }
}

// The panels of all kind lines, in their order.
pub(crate) fn panels_of(heap: Global, kinds: &[KindEntry]) -> Result<Vec<Panel>, AllocError>
    ensures { IfOk result (λ v. v.items ≡ map fitted_panel kinds.now) }
{
    kinds.iter().map(|entry| Panel::from(*entry)).collect(heap)
}

// The rows of all row lines, in their order. A chain for each type is plainer than one under a bound, which knows only a relation of what `from` gives.
pub(crate) fn rows_of(heap: Global, rows: &[RowEntry]) -> Result<Vec<Row>, AllocError>
    ensures { IfOk result (λ v. v.items ≡ map fitted_row rows.now) }
{
    rows.iter().map(|entry| Row::from(*entry)).collect(heap)
}
