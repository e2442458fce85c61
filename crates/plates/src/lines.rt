// The lines of a plate text. Each reader answers the line and the text after it, or what is left of the text from the first byte at fault on.
ghost use Rattle.std.specs.Prelude.{◌≡◌, ◌<◌, ◌++◌, length, MatchResult};
ghost use Rattle.std.proofs.Common.{rules};
ghost use Rattle.std.proofs.lemmas.Grind.{common_steps};
ghost use Rattle.text.specs.Texts.{Stops};
ghost use Rattle.plates.specs.Lines.{line_of_plate, line_of_kind, line_of_row, ShortSetting, ShortKind, ShortRow, PlateLine};
ghost use Rattle.plates.specs.Replies.{Kindly};

use crate::plate::{KindEntry, RowEntry, Setting};
use text::fields::{End, Fault, Letters, choice, number, word};
use text::lines::Entry;

// The first line.
pub(crate) fn plate_line<'a>(text: &'a [u8]) -> Result<(Setting, &'a [u8]), Fault<'a>>
    ensures { MatchResult result (λ x. ShortSetting x.0 × (text.now ≡ line_of_plate x.0 ++ x.1.now)) (λ f. Stops PlateLine text.now f.left.now) }
{
    let rest = word(text, b"plate ")?;
    let (length, rest) = number(rest, End::Blank)?;
    let (width, rest) = number(rest, End::Blank)?;
    let (saw, rest) = number(rest, End::Blank)?;
    let (stages, rest) = number(rest, End::Line)?;
    let setting = Setting {
        length,
        width,
        saw,
        stages,
    };
    Ok((setting, rest))
}

// A kind line. Kinds go on while a line begins with `k`.
impl Entry for KindEntry {
    ghost line = { line_of_kind };

    ghost Short = { ShortKind };

    ghost Next = { Kindly };

    ghost some = { λ k. Prim.search rules };

    fn is_next(text: &[u8]) -> bool {
        matches!(text, [b'k', ..])
    }

    fn read<'a>(text: &'a [u8]) -> Result<(KindEntry, &'a [u8]), Fault<'a>> {
        let rest = word(text, b"kind ")?;
        let (length, rest) = number(rest, End::Blank)?;
        let (width, rest) = number(rest, End::Blank)?;
        let (may_turn, rest) = choice(rest, Letters::Turn, End::Line)?;
        let kind = KindEntry {
            length,
            width,
            may_turn,
        };
        Ok((kind, rest))
    }
}

// A row line. Rows go on to the end of the text.
impl Entry for RowEntry {
    ghost line = { line_of_row };

    ghost Short = { ShortRow };

    ghost Next = { λ t. 0 < length t };

    ghost some = { λ r. Prim.search (rules, common_steps) };

    fn is_next(text: &[u8]) -> bool {
        !text.is_empty()
    }

    fn read<'a>(text: &'a [u8]) -> Result<(RowEntry, &'a [u8]), Fault<'a>> {
        let (kind, rest) = number(text, End::Blank)?;
        let (turned, rest) = choice(rest, Letters::Turn, End::Blank)?;
        let (segment, rest) = number(rest, End::Blank)?;
        let (strip, rest) = number(rest, End::Blank)?;
        let (spare, rest) = choice(rest, Letters::Spare, End::Blank)?;
        let (x, rest) = number(rest, End::Blank)?;
        let (y, rest) = number(rest, End::Line)?;
        let row = RowEntry {
            kind,
            turned,
            segment,
            strip,
            spare,
            x,
            y,
        };
        Ok((row, rest))
    }
}
