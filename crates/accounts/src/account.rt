// The account of an order: how many pieces of each kind were ordered, and how many were counted. This file cites only specs that do not name Account.
ghost use Rattle.std.specs.Prelude.{◌≡◌, length as size};
ghost use Rattle.layout.specs.Limits.{Between};
ghost use Rattle.layout.specs.Tables.{listed};
ghost use Rattle.accounts.specs.Accounts.{EachNumber, NonePast};

use layout::panel::MOST_KINDS;
use layout::table::Table;

mod counting;

// No account outside its limits can exist, and none where more of a kind is counted than was ordered. No equality is derived, since unused places of the tables
// would count.
#[derive(Clone, Copy)]
pub struct Account {
    // two tables and not one of pairs, since a caller sees each of them as a slice
    ordered: Table<u16, MOST_KINDS>,
    counted: Table<u16, MOST_KINDS>,
    ghost many: { size (listed counted) ≡ size (listed ordered) },
    ghost numbers: { EachNumber (Between 1 10000) (listed ordered) },
    ghost bounded: { NonePast (size (listed ordered)) (listed ordered) (listed counted) },
}
