// Groups of pieces that no cut of a stage parts.
ghost use Rattle.std.specs.Prelude.{◌+◌, ◌^◌, ◌<◌, ◌↔◌, IsTrue, IfSome, MatchOption};
ghost use Rattle.layout.specs.Apart.{Exact, Finished};
ghost use Rattle.inspection.specs.Directions.{placed};
ghost use Rattle.inspection.specs.Groups.{NoneLonger, Longer, Lowest, HoldsNone, Group};

use crate::cutting::Cutting;
use crate::places::{Direction, held};
use layout::rect::{Rect, Span};

impl Cutting<'_> {
    // Where some piece ends that lies partly beyond `u` and begins before a cut right after `u` would end.
    fn longer(&self, direction: Direction, part: Rect, u: Span) -> Option<u32>
        requires room { u.to + self.now.saw < 2 ^ 32 }
        ensures { MatchOption result
            (NoneLonger (placed direction self.now.places.now) part self.now.saw u)
            (λ t. Longer (placed direction self.now.places.now) part self.now.saw u t) }
    {
        let cut_end = u.to + self.saw;
        self.places.iter().find_map(|place| {
            let piece = held(direction, part, *place)?;
            let meets = piece.along.from < cut_end && u.to < piece.along.to;
            meets.then_some(piece.along.to)
        })
    }

    // The extent of the piece that begins lowest in the part.
    fn lowest(&self, direction: Direction, part: Rect) -> Option<Span>
        ensures { MatchOption result
            (HoldsNone (placed direction self.now.places.now) part)
            (λ u. Lowest (placed direction self.now.places.now) part u) }
    {
        self.places
            .iter()
            .filter_map(|place| held(direction, part, *place))
            .min_by_key(|piece| piece.along.from)
            .map(|piece| piece.along)
    }

    // The extent of the first group of pieces that no cut of this stage parts.
    pub(crate) fn group(&self, direction: Direction, part: Rect) -> Option<Span>
        ensures group { MatchOption result
            (HoldsNone (placed direction self.now.places.now) part)
            (λ u. Group self.now.saw (placed direction self.now.places.now) part u) }
        ensures room { IfSome result (λ u. u.to + self.now.saw < 2 ^ 32) }
    {
        let mut u = self.lowest(direction, part)?;
        while let Some(t) = self.longer(direction, part, u) {
            u.to = t;
        }
        Some(u)
    }

    // Whether the part holds no piece, or one only and is exactly it.
    pub(crate) fn finished(&self, direction: Direction, part: Rect) -> bool
        ensures { IsTrue result ↔ Finished Exact (placed direction self.now.places.now) part }
    {
        let mut pieces = self
            .places
            .iter()
            .filter_map(|place| held(direction, part, *place));
        match pieces.next() {
            None => true,
            Some(piece) => piece == part && pieces.next().is_none(),
        }
    }
}
