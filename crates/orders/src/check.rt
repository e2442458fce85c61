// Finds the first fault of an order text; needs no memory.
ghost use Rattle.std.specs.Prelude.{◌≡◌, min, length, take, MatchOption, MatchResult};
ghost use Rattle.orders.specs.Orders.{Lawful, LeftAtFault, Fitting};
ghost use Rattle.orders.specs.Places.{bad_text, TellsFault};

use crate::lines::job_line;
use crate::order::Item;
use text::fields::Fault;
use text::lines::Entry;
use text::place::{Place, place_after};

// The most bytes that an order text has.
const MOST_BYTES: usize = 65_536;

// Reads a text to its end, whatever its length, or to its first fault. Nothing is kept, since the text is judged before memory is asked for.
fn read_through<'a>(text: &'a [u8]) -> Result<(), Fault<'a>>
    ensures { MatchResult result (λ _. Lawful text.now) (λ f. LeftAtFault text.now f.left.now) }
{
    let (_, mut rest) = job_line(text)?;
    while Item::is_next(rest) {
        let (_, after) = Item::read(rest)?;
        rest = after;
    }
    Ok(())
}

// The bytes of a text that are within the limit of its length.
fn within_limit<'a>(text: &'a [u8]) -> &'a [u8]
    ensures size { length result.now ≡ min (length text.now) 65536 }
    ensures front { result.now ≡ take (length result.now) text.now }
{
    let size = text.len().min(MOST_BYTES);
    &text[..size]
}

// The place of the first fault; none where the text is lawful and not too long.
pub(crate) fn first_fault(text: &[u8]) -> Option<Place>
    ensures { MatchOption result (Lawful text.now × Fitting text.now) (λ p. TellsFault (bad_text p) text.now) }
{
    let front = within_limit(text);
    match read_through(front) {
        Err(fault) => Some(place_after(&front[..front.len() - fault.left.len()])),
        Ok(()) => (front.len() < text.len()).then(|| place_after(front)),
    }
}
