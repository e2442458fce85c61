// Making a task, and what it holds.
ghost use Rattle.std.specs.Prelude.{◌≡◌, IfOk, MatchBool};
ghost use Rattle.layout.specs.Limits.{EachKind, SomeKind, LawfulSides, LawfulValue, BadSides, BadValue};
ghost use Rattle.layout.specs.Refusals.{Answered};
ghost use Rattle.layout.specs.Tasks.{WithinLimits, given, TaskCause};
ghost use Rattle.layout.specs.Models.{model};

use crate::panel::{GREATEST_SIDE, Kind};
use crate::refusal::Refusal;
use crate::table::Table;
use crate::task::Task;

// Whether every kind has lawful sides.
fn sides_are_lawful(kinds: &[Kind]) -> bool
    ensures { MatchBool result (EachKind LawfulSides kinds.now) (SomeKind BadSides kinds.now) }
{
    kinds.iter().all(Kind::has_lawful_sides)
}

// Whether every kind has a lawful value.
fn values_are_lawful(kinds: &[Kind]) -> bool
    ensures { MatchBool result (EachKind LawfulValue kinds.now) (SomeKind BadValue kinds.now) }
{
    kinds.iter().all(Kind::has_lawful_value)
}

impl Task {
    // The task of a plate and some kinds, or the smallest cause against it. All kinds are looked at, also those past the last place.
    pub fn new(length: u16, width: u16, kinds: &[Kind]) -> Result<Task, Refusal>
        ensures answer { Answered (TaskCause (given length width kinds.now)) result }
        ensures task { IfOk result (λ t. model t ≡ given length width kinds.now) }
    {
        if length > GREATEST_SIDE || width > GREATEST_SIDE || !sides_are_lawful(kinds) {
            return Err(Refusal::Side);
        }
        if !values_are_lawful(kinds) {
            return Err(Refusal::Value);
        }
        let kinds = Table::from_slice(kinds).ok_or(Refusal::TooMany)?;
        Ok(Task {
            length,
            width,
            kinds,
        })
    }

    // The sides of the plate.
    pub fn length(&self) -> u16
        ensures { result ≡ (model self.now).length }
    {
        self.length
    }

    pub fn width(&self) -> u16
        ensures { result ≡ (model self.now).width }
    {
        self.width
    }

    // The kinds of the task, by their number. They and the plate keep to the limits, whichever task it is.
    pub fn kinds(&self) -> &[Kind]
        ensures kinds { result.now ≡ (model self.now).kinds }
        ensures limits { WithinLimits (model self.now) }
    {
        self.kinds.as_slice()
    }
}
