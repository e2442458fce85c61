// The lines of an order text. Each reader answers the line and the text after it, or what is left of the text from the first byte at fault on.
ghost use Rattle.std.specs.Prelude.{◌≡◌, ◌<◌, ◌++◌, length, MatchResult};
ghost use Rattle.std.proofs.Common.{rules};
ghost use Rattle.text.specs.Texts.{Stops};
ghost use Rattle.orders.specs.Lines.{line_of_job, line_of_item, ShortHead, ShortItem, JobLine};

use crate::order::{Head, Item};
use text::fields::{End, Fault, Letters, choice, number, word};
use text::lines::Entry;

// The first line.
pub(crate) fn job_line<'a>(text: &'a [u8]) -> Result<(Head, &'a [u8]), Fault<'a>>
    ensures { MatchResult result (λ x. ShortHead x.0 × (text.now ≡ line_of_job x.0 ++ x.1.now)) (λ f. Stops JobLine text.now f.left.now) }
{
    let rest = word(text, b"job ")?;
    let (job, rest) = number(rest, End::Blank)?;
    let (length, rest) = number(rest, End::Blank)?;
    let (width, rest) = number(rest, End::Blank)?;
    let (saw, rest) = number(rest, End::Blank)?;
    let (trim, rest) = number(rest, End::Line)?;
    let head = Head {
        job,
        length,
        width,
        saw,
        trim,
    };
    Ok((head, rest))
}

// An item line. Items go on to the end of the text.
impl Entry for Item {
    ghost line = { line_of_item };

    ghost Short = { ShortItem };

    ghost Next = { λ t. 0 < length t };

    ghost some = { λ i. Prim.search rules };

    fn is_next(text: &[u8]) -> bool {
        !text.is_empty()
    }

    fn read<'a>(text: &'a [u8]) -> Result<(Item, &'a [u8]), Fault<'a>> {
        let rest = word(text, b"item ")?;
        let (length, rest) = number(rest, End::Blank)?;
        let (width, rest) = number(rest, End::Blank)?;
        let (may_turn, rest) = choice(rest, Letters::Turn, End::Blank)?;
        let (value, rest) = number(rest, End::Blank)?;
        let (ordered, rest) = number(rest, End::Line)?;
        let item = Item {
            length,
            width,
            may_turn,
            value,
            ordered,
        };
        Ok((item, rest))
    }
}
