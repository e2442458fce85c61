// Reads an order text.
ghost use Rattle.std.specs.Result.{MatchResult};
ghost use Rattle.orders.specs.Replies.{Says, SaysOnly, Stopped, UnreadBy};

use crate::check::first_fault;
use crate::lines::job_line;
use crate::order::Order;
use crate::unread::Unread;
use std::alloc::Global;
use text::lines::read_lines;
use text::stop::Stop;

// The whole of a text, whatever its length.
fn read_whole<'a>(heap: Global, text: &'a [u8]) -> Result<Order, Stop<'a>>
    ensures { MatchResult result (λ o. Says o text.now) (λ s. Stopped s text.now) }
{
    let (head, rest) = job_line(text)?;
    let (items, _) = read_lines(heap, rest)?;
    Ok(Order { head, items })
}

// The one order that a text says, or the one place of its first fault. The text is judged to its end before memory is asked for, so that want of
// memory hides no fault.
pub fn read_order(heap: Global, text: &[u8]) -> Result<Order, Unread>
    ensures { MatchResult result (λ o. SaysOnly o text.now) (λ u. UnreadBy u text.now) }
{
    if let Some(place) = first_fault(text) {
        return Err(Unread::Fault(place));
    }
    match read_whole(heap, text) {
        Ok(order) => Ok(order),
        // the text has no fault; a closure would have to be told so
        Err(Stop::Fault(_)) => unreachable(),
        Err(Stop::Memory) => Err(Unread::Memory),
    }
}
