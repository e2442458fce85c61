// What the program prints for an order text.
ghost use Rattle.std.specs.Prelude.{◌≡◌, ◌^◌, ◌<◌, is_ok, IfOk, string_bytes};
ghost use Rattle.orders.specs.Printed.{Appended, pieces_of, head_words, count_words, order_line};
ghost use Rattle.orders.specs.Judged.{Judged};

use crate::order::{Head, Item};
use crate::read::read_order;
use crate::unread::Unread;
use layout::refusal::Refusal;
use std::alloc::{AllocError, Global};
use text::report::{Report, bad};

// How many pieces are ordered in all.
fn pieces_of_items(items: &[Item]) -> u64
    requires { pieces_of items.now < 2 ^ 64 }
    ensures { result ≡ pieces_of items.now }
{
    items.iter().map(|item| u64::from(item.ordered)).sum()
}

// The first half of the line that restates an order.
fn push_head(out: &mut String, head: Head) -> Result<(), AllocError>
    ensures { Appended (is_ok result) (string_bytes out.old) (head_words head) (string_bytes out.new) }
{
    let Head {
        job,
        length,
        width,
        saw,
        trim,
    } = head;
    write!(
        out,
        "order {job} plate {length} {width} saw {saw} trim {trim}"
    )
}

// And the second half.
fn push_counts(out: &mut String, lines: usize, pieces: u64) -> Result<(), AllocError>
    ensures { Appended (is_ok result) (string_bytes out.old) (count_words lines pieces) (string_bytes out.new) }
{
    write!(out, " lines {lines} pieces {pieces}\n")
}

// The order on one line.
fn push_order(out: &mut String, head: Head, items: &[Item]) -> Result<(), AllocError>
    requires { pieces_of items.now < 2 ^ 64 }
    ensures { Appended (is_ok result) (string_bytes out.old) (order_line head items.now) (string_bytes out.new) }
{
    push_head(out, head)?;
    push_counts(out, items.len(), pieces_of_items(items))
}

// The report on a text: the order on one line, or the line of the text's first fault.
pub fn judge(heap: Global, text: &[u8]) -> Result<Report, AllocError>
    ensures { IfOk result (λ s. Judged text.now (string_bytes s.printed) s.accepted) }
{
    match read_order(heap, text) {
        Ok(order) => {
            let mut printed = String::new(heap);
            push_order(&mut printed, order.head, order.items.as_slice())?;
            Ok(Report::accepting(printed))
        }
        Err(Unread::Fault(place)) => {
            let printed = bad(heap, Refusal::Text, place.line, place.column)?;
            Ok(Report::refusing(printed))
        }
        Err(Unread::Memory) => Err(AllocError),
    }
}
