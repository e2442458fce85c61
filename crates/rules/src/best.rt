// What a rule answers of the pattern that it wrote, and the memory that it is lent.

// The least number of words of work memory, and of rows, that `best` takes. It writes no row past these.
pub const WORDS: usize = 8_000;

pub const ROWS: usize = 4_096;

// The number of rows of the pattern written, and their worth.
#[derive(Clone, Copy, Debug, PartialEq, Eq)]
pub struct Best {
    pub rows: u16,
    pub worth: u64,
}
