// Inspection of a plate.
ghost use Rattle.std.specs.Prelude.{◌≡◌, ◌↔◌, [], length as size, IsTrue, IfOk, MatchBool, MatchOption};
ghost use Rattle.layout.specs.Refusals.{Answered};
ghost use Rattle.inspection.specs.Soundness.{plate_in, Sound, AllSound, HasPlaces};
ghost use Rattle.inspection.specs.Verdicts.{Faulty, Finding, FirstFaulty, PlateApart, InspectCause, number_of, plate_of};

use crate::cutting::Cutting;
use crate::limits::MOST_ROWS;
use crate::places::{place, whole_plate};
use crate::plate::LawfulPlate;
use crate::verdict::Verdict;
use arrayvec::ArrayVec;
use layout::panel::Panel;
use layout::rect::Rect;
use layout::refusal::Refusal;
use layout::row::Row;

impl LawfulPlate<'_> {
    // Whether a row's kind is known, its turn allowed and its piece inside the plate.
    fn is_sound(&self, row: Row) -> bool
        ensures { MatchBool result
            (Sound self.now.length self.now.width self.now.kinds.now row)
            (Faulty self.now.length self.now.width self.now.kinds.now row) }
    {
        let Some(kind) = self.kinds.get(usize::from(row.kind)) else {
            return false;
        };
        let turn_is_allowed = match row.turned {
            0 => true,
            1 => kind.may_turn,
            _ => false,
        };
        let piece = place(self.kinds, row);
        turn_is_allowed
            && piece.along.to <= u32::from(self.length)
            && piece.across.to <= u32::from(self.width)
    }

    // The first row at fault. The project holds to a loop over the rows with their index here.
    fn first_faulty(&self) -> Option<usize>
        ensures { MatchOption result
            (AllSound (plate_in self.now))
            (λ k. FirstFaulty (plate_in self.now) k) }
    {
        for (i, row) in self.rows.iter().enumerate() {
            if !self.is_sound(*row) {
                return Some(i);
            }
        }
        None
    }

    // Puts the places of the pieces, in the order of the rows, into an empty list. The list is lent: handed back by value it would be copied, all its 64 KiB.
    #[tactic(auto, using(crate::proofs::Judging::row_places))]
    fn put_places(&self, places: &mut ArrayVec<Rect, MOST_ROWS>)
        requires sound { AllSound (plate_in self.now) }
        requires empty { places.old.items ≡ [] }
        ensures many { size places.new.items ≡ size self.now.rows.now }
        ensures there { HasPlaces (plate_in self.now) places.new.items (size self.now.rows.now) }
    {
        for row in self.rows {
            places.push(place(self.kinds, *row));
        }
    }

    // Whether the plate comes apart, whichever direction comes first. Not inlined: only what is inspected needs the stack for the places.
    #[inline(never)]
    fn comes_apart(&self) -> bool
        requires sound { AllSound (plate_in self.now) }
        ensures { IsTrue result ↔ PlateApart (plate_in self.now) }
    {
        let mut places = ArrayVec::new();
        self.put_places(&mut places);
        let cutting = Cutting {
            places: places.as_slice(),
            saw: u32::from(self.saw),
        };
        cutting.apart_either_way(whole_plate(self.length, self.width), self.stages)
    }

    // The verdict on the plate, and the row that goes with it.
    fn verdict(&self) -> (Verdict, usize)
        ensures { Finding (plate_in self.now) (number_of result.0) result.1 }
    {
        match self.first_faulty() {
            Some(row) => (Verdict::FaultyRow, row),
            None if self.comes_apart() => (Verdict::Accepted, 0),
            None => (Verdict::NotApart, 0),
        }
    }
}

// The verdict on a plate and the row that goes with it: the first row at fault, or 0. The project holds to this pair, as it is printed. Segment, strip and spare are
// not looked at.
pub fn inspect(
    length: u16,
    width: u16,
    saw: u8,
    stages: u8,
    kinds: &[Panel],
    rows: &[Row],
) -> Result<(Verdict, usize), Refusal>
    ensures answer { Answered
        (InspectCause (plate_of length width saw stages kinds.now rows.now)) result }
    ensures finding { IfOk result (λ f. Finding
        (plate_of length width saw stages kinds.now rows.now) (number_of f.0) f.1) }
{
    let plate = LawfulPlate::new(length, width, saw, stages, kinds, rows)?;
    Ok(plate.verdict())
}
