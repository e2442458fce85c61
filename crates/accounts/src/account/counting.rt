// The calls of an account.
ghost use Rattle.std.specs.Prelude.{◌≡◌, ◌+◌, ◌*◌, ◌<◌, ◌≤◌, length as size, IfOk, Decides, MatchBool, MatchOption, OnOk};
ghost use Rattle.layout.specs.Limits.{Between, Outside};
ghost use Rattle.layout.specs.Refusals.{Answered};
ghost use Rattle.layout.specs.Tables.{listed};
ghost use Rattle.accounts.specs.Accounts.{EachNumber, SomeNumber, EachRow, SomeRow, LawfulBook, LawfulRows, Counts, Left, Met, Full, SomePast, Summed, Tallied, AccountCause, CountCause, opened, RowsCause};
ghost use Rattle.accounts.specs.Books.{book};

use super::Account;
use layout::panel::MOST_KINDS;
use layout::refusal::Refusal;
use layout::row::Row;
use layout::table::Table;

// The greatest ordered number, and the most runs that are counted at once; the least is 1.
const GREATEST_NUMBER: u16 = 10_000;

// The most rows that are counted at once.
const MOST_ROWS: usize = 4_096;

// Whether every number is 1 to 10,000.
fn numbers_are_lawful(numbers: &[u16]) -> bool
    ensures { MatchBool result (EachNumber (Between 1 10000) numbers.now) (SomeNumber (Outside 1 10000) numbers.now) }
{
    numbers.iter().all(|n| (1..=GREATEST_NUMBER).contains(n))
}

// Whether each row's kind is known. All rows are looked at, spare ones too.
fn kinds_are_known(rows: &[Row], kinds: usize) -> bool
    ensures { MatchBool result (EachRow (λ row. row.kind < kinds) rows.now) (SomeRow (λ row. kinds ≤ row.kind) rows.now) }
{
    rows.iter().all(|row| usize::from(row.kind) < kinds)
}

// Whether rows of so many plates may be counted, whatever stands in the account.
fn check_rows(rows: &[Row], kinds: usize, runs: u16) -> Result<(), Refusal>
    ensures answer { Answered (RowsCause kinds rows.now runs) result }
    ensures lawful { OnOk result (LawfulRows kinds rows.now runs) }
{
    if !(1..=GREATEST_NUMBER).contains(&runs) {
        return Err(Refusal::Quantity);
    }
    if !kinds_are_known(rows, kinds) {
        return Err(Refusal::UnknownKind);
    }
    if rows.len() > MOST_ROWS {
        return Err(Refusal::Room);
    }
    Ok(())
}

// Whether the row's piece is kept.
fn is_kept(row: Row) -> bool
    ensures { Decides result (row.spare ≡ 0) }
{
    row.spare == 0
}

// How many rows of each kind are kept, by the kind's number: `as` loses nothing of it, and the number is the place.
fn tally(rows: &[Row]) -> [u16; MOST_KINDS]
    requires known { EachRow (λ row. row.kind < 32) rows.now }
    requires few { size rows.now ≤ 4096 }
    ensures { Tallied rows.now result }
{
    let mut table = [0; MOST_KINDS];
    for row in rows {
        if is_kept(*row) {
            table[row.kind as usize] += 1;
        }
    }
    table
}

// What a kind has after so many runs, unless it would pass its ordered number.
fn sum_up_to(ordered: u16, counted: u16, tally: u16, runs: u16) -> Option<u16>
    ensures { MatchOption result (ordered < counted + runs * tally) (λ sum. (sum ≡ counted + runs * tally) × (sum ≤ ordered)) }
{
    let sum = u32::from(counted) + u32::from(runs) * u32::from(tally);
    u16::try_from(sum).ok().filter(|sum| *sum <= ordered)
}

impl Account {
    // An account of the ordered numbers, with nothing counted, or the smallest cause against it. All numbers are looked at before a refusal is chosen.
    pub fn new(ordered: &[u16]) -> Result<Account, Refusal>
        ensures answer { Answered (AccountCause ordered.now) result }
        ensures account { IfOk result (λ a. book a ≡ opened ordered.now) }
    {
        if !numbers_are_lawful(ordered) {
            return Err(Refusal::Quantity);
        }
        let ordered = Table::from_slice(ordered).ok_or(Refusal::TooMany)?;
        let mut counted = ordered;
        counted.fill(0);
        Ok(Account { ordered, counted })
    }

    // The ordered number of each kind.
    pub fn ordered(&self) -> &[u16]
        ensures { result.now ≡ (book self.now).ordered }
    {
        self.ordered.as_slice()
    }

    // How many of each kind were counted.
    pub fn counted(&self) -> &[u16]
        ensures { result.now ≡ (book self.now).counted }
    {
        self.counted.as_slice()
    }

    // The counts after so many runs of the kept rows, unless some kind would pass its ordered number. There is room for each, as there is in the order.
    fn counts_after(&self, tallies: &[u16], runs: u16) -> Option<Table<u16, MOST_KINDS>>
        requires { Full tallies.now }
        ensures { MatchOption result (SomePast (book self.now) tallies.now runs) (λ sums. (size (listed sums) ≡ size (book self.now).ordered) × Summed (book self.now) tallies.now runs (listed sums)) }
    {
        let mut sums = Table::new();
        let counted = self.counted().iter().zip(tallies);
        for ((count, tally), number) in counted.zip(self.ordered()) {
            sums.push(sum_up_to(*number, *count, *tally, runs)?);
        }
        Some(sums)
    }

    // The counts after so many runs of the kept rows of a plate, or the smallest cause against it.
    fn counts_of(&self, rows: &[Row], runs: u16) -> Result<Table<u16, MOST_KINDS>, Refusal>
        ensures answer { Answered (CountCause (book self.now) rows.now runs) result }
        ensures limits { LawfulBook (book self.now) }
        ensures counts { IfOk result (λ counts. Counts (book self.now) rows.now runs (listed counts)) }
    {
        check_rows(rows, self.ordered().len(), runs)?;
        self.counts_after(&tally(rows), runs)
            .ok_or(Refusal::PastOrder)
    }

    // Counts the kept rows of so many plates. Where it is refused, the account stays as it was, and either way it keeps to its limits.
    pub fn count(&mut self, rows: &[Row], runs: u16) -> Result<(), Refusal>
        ensures answer { Answered (CountCause (book self.old) rows.now runs) result }
        ensures left { Left result (book self.old) rows.now runs (book self.new) }
        ensures limits { LawfulBook (book self.new) }
    {
        self.counted = self.counts_of(rows, runs)?;
        Ok(())
    }

    // Whether every kind has its ordered number.
    pub fn met(&self) -> bool
        ensures { Decides result (Met (book self.now)) }
    {
        self.ordered()
            .iter()
            .zip(self.counted())
            .all(|(ordered, counted)| ordered == counted)
    }
}
