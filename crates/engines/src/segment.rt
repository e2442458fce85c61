// Segments: parts of the plate over its whole width, filled with strips one above the other.

// Where a segment stands, and its number.
#[derive(Clone, Copy, Debug, PartialEq, Eq)]
pub(crate) struct Segment {
    pub(crate) number: u8,
    pub(crate) x: u16,
    pub(crate) length: u16,
}

// Where a strip begins, and its numbers.
#[derive(Clone, Copy, Debug, PartialEq, Eq)]
pub(crate) struct Corner {
    pub(crate) segment: u8,
    pub(crate) strip: u8,
    pub(crate) x: u16,
    pub(crate) y: u16,
}
