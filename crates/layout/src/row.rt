// Rows: the pieces of a plate.
ghost use Rattle.std.specs.Prelude.{◌≡◌};
ghost use Rattle.layout.specs.Pieces.{blank};

// One piece. The fields are plain numbers, since a caller may bring any. In what the office writes, kind is at most 31, segment at most 7 and strip
// at most 63, and turned and spare are 0 or 1. No kind allows a turn above 1, and all above 0 are spare. The corner x, y is the one nearest to 0, 0.
#[derive(Clone, Copy, Debug, PartialEq, Eq)]
pub struct Row {
    pub kind: u8,
    pub turned: u8,
    pub segment: u8,
    pub strip: u8,
    pub spare: u8,
    pub x: u16,
    pub y: u16,
}

// No piece: all zeros.
pub const BLANK: Row = Row {
    kind: 0,
    turned: 0,
    segment: 0,
    strip: 0,
    spare: 0,
    x: 0,
    y: 0,
};

impl Row {
    // The row that fills a list past its pieces.
    pub fn blank() -> Row
        ensures { result ≡ blank }
    {
        BLANK
    }
}
