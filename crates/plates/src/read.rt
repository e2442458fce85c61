// Reads a plate text.
ghost use Rattle.std.specs.Prelude.{◌+◌, ◌^◌, ◌<◌, length, MatchResult};
ghost use Rattle.text.specs.Many.{LinesRead};
ghost use Rattle.plates.specs.Replies.{PlateRead, PlateUnread, PartUnread};

use crate::lines::plate_line;
use crate::plate::{KindEntry, Plate, RowEntry};
use crate::unread::Unread;
use std::alloc::Global;
use text::lines::{Broken, Entry, read_lines};

// The lines of one kind at the front of a text, `before` lines having been read before it. The error is matched, since a closure would have to be told that the sum has
// room.
fn read_part<'a, E: Entry>(
    heap: Global,
    text: &'a [u8],
    before: usize,
) -> Result<(Vec<E>, &'a [u8]), Unread>
    requires { before + length text.now + 1 < 2 ^ 64 }
    ensures { MatchResult result (λ x. LinesRead E.line E.Short E.Next text.now x.0.items x.1.now) (λ u. PartUnread E.line E.Short E.Next text.now before u) }
{
    match read_lines(heap, text) {
        Ok(part) => Ok(part),
        Err(Broken::Line(lines, _)) => Err(Unread::Line(before + lines + 1)),
        Err(Broken::Memory) => Err(Unread::Memory),
    }
}

// The one plate that a text says, or its first line that is not as it must be.
pub fn read_plate(heap: Global, text: &[u8]) -> Result<Plate, Unread>
    ensures { MatchResult result (λ p. PlateRead p text.now) (λ u. PlateUnread u text.now) }
{
    let (setting, rest) = plate_line(text).map_err(|_| Unread::Line(1))?;
    let (kinds, rest) = read_part::<KindEntry>(heap, rest, 1)?;
    let (rows, _) = read_part::<RowEntry>(heap, rest, 1 + kinds.len())?;
    Ok(Plate {
        setting,
        kinds,
        rows,
    })
}
