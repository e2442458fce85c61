// A plate that is inspected.
ghost use Rattle.std.specs.Prelude.{◌≤◌, length as size, All, Any, IfOk, MatchBool};
ghost use Rattle.layout.specs.Limits.{Between, Outside};
ghost use Rattle.inspection.specs.Verdicts.{LawfulPanel, BadPanel};

use crate::limits::{GREATEST_SAW, GREATEST_SIDE, LEAST_SIDE, MOST_KINDS, MOST_ROWS, MOST_STAGES};
use layout::panel::Panel;
use layout::refusal::Refusal;
use layout::row::Row;

// A plate within the limits of inspection: its sides, the saw width, the stages, its kinds and its rows. No plate that is to be refused can be one,
// since each place where one is made has to prove the ghost fields.
#[derive(Clone, Copy)]
pub(crate) struct LawfulPlate<'a> {
    pub(crate) length: u16,
    pub(crate) width: u16,
    pub(crate) saw: u8,
    pub(crate) stages: u8,
    pub(crate) kinds: &'a [Panel],
    pub(crate) rows: &'a [Row],
    ghost sides: { Between 50 3000 length × Between 50 3000 width },
    ghost lawful: { All LawfulPanel kinds.now },
    ghost few: { size rows.now ≤ 4096 },
    ghost settings: { (saw ≤ 20) × Between 1 7 stages },
    ghost few_kinds: { size kinds.now ≤ 32 },
}

// Whether a side of a plate or of a kind is 50 to 3,000.
fn side_is_lawful(side: u16) -> bool
    ensures { MatchBool result (Between 50 3000 side) (Outside 50 3000 side) }
{
    (LEAST_SIDE..=GREATEST_SIDE).contains(&side)
}

// Whether every kind has lawful sides, also those past the most that are allowed.
fn kinds_are_lawful(kinds: &[Panel]) -> bool
    ensures { MatchBool result (All LawfulPanel kinds.now) (Any BadPanel kinds.now) }
{
    kinds.iter().all(|kind| side_is_lawful(kind.length) && side_is_lawful(kind.width))
}

impl<'a> LawfulPlate<'a> {
    ghost use Rattle.layout.specs.Refusals.{Answered};
    ghost use Rattle.std.specs.Prelude.{◌≡◌};
    ghost use Rattle.inspection.specs.Verdicts.{InspectCause, plate_of};
    ghost use Rattle.inspection.specs.Soundness.{plate_in};

    // The plate that is given, or why it is not inspected.
    pub(crate) fn new(
        length: u16,
        width: u16,
        saw: u8,
        stages: u8,
        kinds: &'a [Panel],
        rows: &'a [Row],
    ) -> Result<LawfulPlate<'a>, Refusal>
        ensures answer { Answered
            (InspectCause (plate_of length width saw stages kinds.now rows.now)) result }
        ensures given { IfOk result
            (λ p. plate_in p ≡ plate_of length width saw stages kinds.now rows.now) }
    {
        if !side_is_lawful(length) || !side_is_lawful(width) || !kinds_are_lawful(kinds) {
            return Err(Refusal::Side);
        }
        if rows.len() > MOST_ROWS {
            return Err(Refusal::Room);
        }
        if saw > GREATEST_SAW || !(1..=MOST_STAGES).contains(&stages) {
            return Err(Refusal::Setting);
        }
        if kinds.len() > MOST_KINDS {
            return Err(Refusal::TooMany);
        }
        Ok(LawfulPlate {
            length,
            width,
            saw,
            stages,
            kinds,
            rows,
        })
    }
}
