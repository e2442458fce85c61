// What an order text says. Its numbers have at most seven digits, and are not yet held to any range.

// The first line: job number, sides of the plate, saw width and trim.
#[derive(Clone, Copy, Debug, PartialEq, Eq)]
pub struct Head {
    pub job: u32,
    pub length: u32,
    pub width: u32,
    pub saw: u32,
    pub trim: u32,
}

// An item line: a panel, its value and how many are ordered.
#[derive(Clone, Copy, Debug, PartialEq, Eq)]
pub struct Item {
    pub length: u32,
    pub width: u32,
    pub may_turn: bool,
    pub value: u32,
    pub ordered: u32,
}

// The whole text: its first line and its items.
#[derive(Debug, PartialEq, Eq, Drop)]
pub struct Order {
    pub head: Head,
    pub items: Vec<Item>,
}
