// What inspection finds.
ghost use Rattle.std.specs.Prelude.{◌≡◌};
ghost use Rattle.inspection.specs.Verdicts.{number_of};

#[derive(Clone, Copy, Debug, PartialEq, Eq)]
pub enum Verdict {
    // no row is at fault, and the plate comes apart
    Accepted = 0,
    // a row is at fault
    FaultyRow = 21,
    // no row is at fault, and the plate does not come apart
    NotApart = 22,
}

impl Verdict {
    // The number by which a verdict is known outside the program.
    pub fn code(self) -> u8
        ensures { result ≡ number_of self }
    {
        self as u8
    }
}
