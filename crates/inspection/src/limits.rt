// The limits of inspection.

// The most kinds of a plate.
pub use layout::panel::MOST_KINDS;

// The least side of a plate and of a kind.
pub use layout::panel::LEAST_SIDE;

// The greatest side of a plate and of a kind.
pub const GREATEST_SIDE: u16 = 3_000;

// The most rows of a plate.
pub const MOST_ROWS: usize = 4_096;

// The greatest saw width.
pub const GREATEST_SAW: u8 = 20;

// The most stages; the least number is 1.
pub const MOST_STAGES: u8 = 7;
