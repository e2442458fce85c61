// Reads an order text from standard input, takes every item as wanted, and prints the pattern that each named rule names for the bare plate: for
// comparing the rules, and for measuring them.
#![tactic(auto)]

use engines::three_staged::ThreeStaged;
use engines::two_staged::TwoStaged;
use layout::panel::{Kind, MOST_KINDS, Panel};
use layout::row::{BLANK, Row};
use layout::table::Table;
use layout::task::Task;
use orders::order::{Item, Order};
use orders::read::read_order;
use rules::best::{ROWS, WORDS};
use rules::rule::Rule;
use std::io;
use std::io::Read;

// The kind of an item, if its sides fit the fields of a panel.
fn kind_of(item: &Item) -> Option<Kind> {
    let panel = Panel {
        length: u16::try_from(item.length).ok()?,
        width: u16::try_from(item.width).ok()?,
        may_turn: item.may_turn,
    };
    Some(Kind {
        panel,
        value: item.value,
        wanted: true,
    })
}

// The task of an order with all items wanted, or None where it is beyond the limits of a task.
fn task_of(order: &Order) -> Option<Task> {
    let length = u16::try_from(order.head.length).ok()?;
    let width = u16::try_from(order.head.width).ok()?;
    let mut kinds: Table<Kind, MOST_KINDS> = Table::new();
    for item in order.items.as_slice() {
        if !kinds.push(kind_of(item)?) {
            return None;
        }
    }
    Task::new(length, width, kinds.as_slice()).ok()
}

fn print_row(rt: HostRuntime, row: &Row) -> io::Result<()> {
    let turned = if row.turned == 0 { "n" } else { "t" };
    println!(rt;
        "{} {} {} {} k {} {}",
        row.kind, turned, row.segment, row.strip, row.x, row.y
    )
}

fn print_best<R: Rule>(
    rt: HostRuntime,
    name: &str,
    rule: &R,
    task: &Task,
    work: &mut [u64],
    rows: &mut [Row],
) -> io::Result<()> {
    let best = rule
        .best(task, work, rows)
        .map_err(|_| io::Error::other("the task is beyond the reach"))?;
    println!(rt; "{} worth {} rows {}", name, best.worth, best.rows)?;
    for row in rows.iter().take(usize::from(best.rows)) {
        print_row(rt, row)?;
    }
    Ok(())
}

// What both rules name. They are lent the same memory; not inlined, so that an order that is refused asks for none of it.
#[inline(never)]
fn print_both(rt: HostRuntime, task: &Task) -> io::Result<()> {
    let mut work = [1; WORDS];
    let mut rows = [BLANK; ROWS];
    print_best(rt, "two-staged", &TwoStaged, task, &mut work, &mut rows)?;
    print_best(rt, "three-staged", &ThreeStaged, task, &mut work, &mut rows)
}

fn main(rt: HostRuntime) -> io::Result<()> {
    let heap = rt.alloc();
    let mut text = Vec::new(heap);
    rt.stdin().read_to_end(&mut text)?;
    let order = read_order(heap, text.as_slice()).map_err(|_| io::Error::other(
        "the text is not an order",
    ))?;
    let task = task_of(&order).ok_or_else(|| io::Error::other(
        "the order is beyond the limits of a task",
    ))?;
    print_both(rt, &task)
}
