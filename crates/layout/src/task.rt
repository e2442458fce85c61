// The task: a plate and the kinds that may be laid on it. This file cites only specs that do not name Task.
ghost use Rattle.std.specs.Prelude.{◌≤◌};
ghost use Rattle.layout.specs.Limits.{EachKind, LawfulSides, LawfulValue};
ghost use Rattle.layout.specs.Tables.{listed};

use crate::panel::{Kind, MOST_KINDS};
use crate::table::Table;

mod making;
mod varying;

// No task outside the limits can exist: each place where one is made has to prove the ghost fields. No equality is derived, since the unused places of the table
// would count.
#[derive(Clone, Copy)]
pub struct Task {
    length: u16,
    width: u16,
    kinds: Table<Kind, MOST_KINDS>,
    ghost plate: { (length ≤ 3200) × (width ≤ 3200) },
    ghost sides: { EachKind LawfulSides (listed kinds) },
    ghost values: { EachKind LawfulValue (listed kinds) },
}
