// What a sequence can be worth: a nothing, a sum and an order that keep laws. The plain worth is a number.
ghost use Rattle.std.specs.Prelude.{◌≡◌, ℕ, Decides};
ghost use Rattle.choosing.specs.Plain.{plain, PlainWithin};
ghost use Rattle.choosing.specs.Worth.{Laws, Limits, Scale};
ghost use Rattle.choosing.specs.Numbers.{plain_laws, plain_limits};

// The most that the plain worth of 64 pieces can be.
const MOST_OF_64: u64 = 64_000_000;

// It has a nothing, a sum and an order of its own: the laws of all three together speak of the one record `scale`, to which those of `Default`, `Add` and `Ord` would each have to be tied by a law more.
pub trait Worth: Copy {
    // A nothing, a sum and an order.
    ghost scale: { Scale Self };

    // What is a sum of at most so many pieces, or as small as one.
    ghost within: { ℕ → Self → Type 0 };

    fn nothing() -> Self
        ensures { result ≡ scale.nothing };

    // The sum, where it is one of at most 4,096 pieces.
    fn plus(self, other: Self) -> Self
        ensures { within 4096 (scale.plus self other) → result ≡ scale.plus self other };

    fn less(self, other: Self) -> bool
        ensures { result ≡ scale.less self other };

    // Whether it is a sum of at most 64 pieces, or as small as one.
    fn few(self) -> bool
        ensures { Decides result (within 64 self) };

    ghost laws: { Laws scale };

    ghost limits: { Limits scale within };
}

impl Worth for u64 {
    ghost scale = { plain };

    ghost within = { PlainWithin };

    ghost laws = { plain_laws };

    ghost limits = { plain_limits };

    fn nothing() -> u64 {
        0
    }

    fn plus(self, other: u64) -> u64 {
        self.wrapping_add(other)
    }

    fn less(self, other: u64) -> bool {
        self < other
    }

    fn few(self) -> bool {
        self <= MOST_OF_64
    }
}
