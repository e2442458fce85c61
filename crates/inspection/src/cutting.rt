// What is cut apart.
ghost use Rattle.layout.specs.Apart.{Sized};
ghost use Rattle.inspection.specs.declared.places.Direction.TheVariants.{Length};
ghost use Rattle.inspection.specs.Directions.{placed, RoomForCuts};

use layout::rect::Rect;

// The places of the pieces that are cut apart, and the width of the saw. Part and direction change with each stage, so they are given to each call. Each piece has some length and some width, and a cut right after it ends
// within 32 bits.
#[derive(Clone, Copy)]
pub(crate) struct Cutting<'a> {
    pub(crate) places: &'a [Rect],
    pub(crate) saw: u32,
    ghost sized: { Sized (placed Length places.now) },
    ghost room: { RoomForCuts saw (placed Length places.now) },
}
