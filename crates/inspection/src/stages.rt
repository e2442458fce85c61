// Whether a part comes apart in the stages that are left. Each stage makes every cut that it can: this loses nothing. Each group of a stage has a
// piece of its own, and finding it looks at all places a few times, so the cost grows with the square of the rows.
ghost use Rattle.std.specs.Prelude.{◌⊎◌, ◌↔◌, IsTrue};
ghost use Rattle.layout.specs.Apart.{Exact, Apart, swapped};
ghost use Rattle.inspection.specs.declared.places.Direction.TheVariants.{Length, Width};
ghost use Rattle.inspection.specs.Directions.{placed};

use crate::cutting::Cutting;
use crate::places::{Direction, view};
use layout::rect::Rect;

impl Cutting<'_> {
    // Whether the part comes apart when the first stage divides its length, which is its extent along. The project holds to one function for each
    // direction of cuts, so this one and the next stay twins.
    #[cycle(apart_by_length_apart_by_width)]
    fn apart_by_length(&self, part: Rect, stages: u8) -> bool
        ensures { IsTrue result ↔
            Apart Exact self.now.saw (placed Length self.now.places.now) stages part }
    {
        let is_finished = self.finished(Direction::Length, part);
        if is_finished || stages == 0 {
            return is_finished;
        }
        let mut rest = part;
        while let Some(u) = self.group(Direction::Length, rest) {
            let slice = Rect {
                along: rest.across,
                across: u,
            };
            if !self.apart_by_width(slice, stages - 1) {
                return false;
            }
            rest.along.from = u.to + self.saw;
        }
        true
    }

    // Whether the part comes apart when the first stage divides its width, which is its extent along.
    #[cycle(apart_by_length_apart_by_width)]
    fn apart_by_width(&self, part: Rect, stages: u8) -> bool
        ensures { IsTrue result ↔
            Apart Exact self.now.saw (placed Width self.now.places.now) stages part }
    {
        let is_finished = self.finished(Direction::Width, part);
        if is_finished || stages == 0 {
            return is_finished;
        }
        let mut rest = part;
        while let Some(u) = self.group(Direction::Width, rest) {
            let slice = Rect {
                along: rest.across,
                across: u,
            };
            if !self.apart_by_length(slice, stages - 1) {
                return false;
            }
            rest.along.from = u.to + self.saw;
        }
        true
    }

    // Whether the part comes apart, whichever direction comes first.
    pub(crate) fn apart_either_way(&self, part: Rect, stages: u8) -> bool
        ensures { IsTrue result ↔
            (Apart Exact self.now.saw (placed Length self.now.places.now) stages part
            ⊎ Apart Exact self.now.saw (placed Width self.now.places.now) stages (swapped part)) }
    {
        self.apart_by_length(part, stages)
            || self.apart_by_width(view(Direction::Width, part), stages)
    }
}
