// Panels and kinds: what is to be cut. Lengths are whole millimetres.
ghost use Rattle.std.specs.Prelude.{◌≡◌, MatchBool};
ghost use Rattle.layout.specs.Pieces.{along, across};
ghost use Rattle.layout.specs.Limits.{LawfulSides, LawfulValue, BadSides, BadValue};
ghost use Rattle.layout.specs.Tasks.{KindWithin, KindBeyond};
ghost use Rattle.layout.specs.Variants.{exchanged_panel};
ghost use Rattle.layout.specs.Sums.{stretched_panel};

// The least and the greatest side that a kind of a task has.
pub const LEAST_SIDE: u16 = 50;

pub const GREATEST_SIDE: u16 = 3_200;

// The greatest value of a kind; the least is 1.
pub const GREATEST_VALUE: u32 = 1_000_000;

// The most kinds that a task has.
pub const MOST_KINDS: usize = 32;

// A rectangle to be cut. It may be laid as it is or, where `may_turn` says so, turned by a quarter.
#[derive(Clone, Copy, Debug, Default, PartialEq, Eq)]
pub struct Panel {
    pub length: u16,
    pub width: u16,
    pub may_turn: bool,
}

impl Panel {
    // The size of a piece along the plate's length. The turn is a number, since rows may bring any; every number above 0 means turned.
    pub fn along_size(self, turned: u8) -> u16
        ensures { result ≡ along self turned }
    {
        if turned == 0 { self.length } else { self.width }
    }

    // The size of a piece along the plate's width, for the same turns.
    pub fn across_size(self, turned: u8) -> u16
        ensures { result ≡ across self turned }
    {
        if turned == 0 { self.width } else { self.length }
    }

    // The panel with its sides exchanged.
    pub(crate) fn exchanged(self) -> Panel
        ensures { result ≡ exchanged_panel self }
    {
        Panel {
            length: self.width,
            width: self.length,
            ..self
        }
    }

    // The panel with so much added to both sides, as far as their fields hold it.
    pub(crate) fn stretched(self, by: u16) -> Panel
        ensures { result ≡ stretched_panel by self }
    {
        Panel {
            length: self.length.saturating_add(by),
            width: self.width.saturating_add(by),
            ..self
        }
    }
}

// A panel with what one piece of it is worth, and whether a pattern may hold it.
#[derive(Clone, Copy, Debug, Default, PartialEq, Eq)]
pub struct Kind {
    pub panel: Panel,
    pub value: u32,
    pub wanted: bool,
}

impl Kind {
    // Whether both sides are within the limits of a task.
    pub(crate) fn has_lawful_sides(&self) -> bool
        ensures { MatchBool result (LawfulSides self.now) (BadSides self.now) }
    {
        let lawful = LEAST_SIDE..=GREATEST_SIDE;
        lawful.contains(&self.panel.length) && lawful.contains(&self.panel.width)
    }

    // Whether the value is within the limits of a task.
    pub(crate) fn has_lawful_value(&self) -> bool
        ensures { MatchBool result (LawfulValue self.now) (BadValue self.now) }
    {
        (1..=GREATEST_VALUE).contains(&self.value)
    }

    // Whether neither side exceeds the reach.
    pub(crate) fn is_within(&self, reach: u16) -> bool
        ensures { MatchBool result (KindWithin reach self.now) (KindBeyond reach self.now) }
    {
        self.panel.length <= reach && self.panel.width <= reach
    }
}

// No kind: no size, no value, not wanted. It is the default too.
pub const NO_KIND: Kind = Kind {
    panel: Panel {
        length: 0,
        width: 0,
        may_turn: false,
    },
    value: 0,
    wanted: false,
};
