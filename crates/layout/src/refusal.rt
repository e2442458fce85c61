// Why a call is refused.
ghost use Rattle.std.specs.Prelude.{◌≡◌};
ghost use Rattle.layout.specs.Refusals.{code_of};

#[derive(Clone, Copy, Debug, PartialEq, Eq)]
pub enum Refusal {
    // a side out of its range
    Side = 1,
    // a value out of its range
    Value = 2,
    // an ordered number or a number of runs out of its range
    Quantity = 3,
    // no such kind
    UnknownKind = 4,
    // too little work memory, too few rows to write to, or too many rows to read
    Room = 5,
    // a saw width, a trim or a number of stages out of its range
    Setting = 6,
    // bad text
    Text = 7,
    // a job number out of its range
    JobNumber = 8,
    // too many lines or kinds
    TooMany = 11,
    // a plate is out already
    PlateOut = 12,
    // the slip is written already
    SlipWritten = 13,
    // no plate is out, or the slip is not of this job
    NothingToSettle = 14,
    // nothing is owed
    NothingOwed = 15,
    // only the empty pattern is left
    OnlyEmpty = 16,
    // the reach is too short
    Reach = 17,
    // more would be counted than was ordered
    PastOrder = 18,
}

impl Refusal {
    // The number by which a refusal is known outside the program.
    pub fn code(self) -> u8
        ensures { result ≡ code_of self }
    {
        self as u8
    }
}
