// What a plate text says. Its numbers have at most seven digits, and are not yet held to any range.

// The first line: the sides of the plate, the saw width and the stages.
#[derive(Clone, Copy, Debug, PartialEq, Eq)]
pub struct Setting {
    pub length: u32,
    pub width: u32,
    pub saw: u32,
    pub stages: u32,
}

// A kind line: a panel.
#[derive(Clone, Copy, Debug, PartialEq, Eq)]
pub struct KindEntry {
    pub length: u32,
    pub width: u32,
    pub may_turn: bool,
}

// A row line: a piece.
#[derive(Clone, Copy, Debug, PartialEq, Eq)]
pub struct RowEntry {
    pub kind: u32,
    pub turned: bool,
    pub segment: u32,
    pub strip: u32,
    pub spare: bool,
    pub x: u32,
    pub y: u32,
}

// The whole text: its first line, its kinds and its rows.
#[derive(Debug, PartialEq, Eq, Drop)]
pub struct Plate {
    pub setting: Setting,
    pub kinds: Vec<KindEntry>,
    pub rows: Vec<RowEntry>,
}
