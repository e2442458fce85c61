// Extents and rectangles: where a piece lies on a plate, and a part of a plate.

// An extent in one direction: it covers `from` up to `to`.
#[derive(Clone, Copy, Debug, Default, PartialEq, Eq)]
pub struct Span {
    pub from: u32,
    pub to: u32,
}

// A rectangle: its extent along the direction that the cuts at hand divide, and its extent across that direction.
#[derive(Clone, Copy, Debug, Default, PartialEq, Eq)]
pub struct Rect {
    pub along: Span,
    pub across: Span,
}
