// The oriented numbers of a task that count, and those of them that fit a smaller rectangle.
ghost use Rattle.std.specs.Prelude.{◌≡◌, ◌+◌, ◌<◌, ◌≤◌, [], ◌++◌, length as size, filter};
ghost use Rattle.arrayvec.specs.ArrayVec.{array_vec_len};
ghost use Rattle.patterns.specs.Numbers.{inside, keep, numbers_from};
ghost use Rattle.patterns.specs.Numbers.{counts as is_counted, oriented as in_turn};
ghost use Rattle.engines.specs.Stock.{turn_allowed};

use arrayvec::ArrayVec;
use layout::panel::Kind;
use patterns::Oriented;

// Each of the 32 kinds has two.
pub(crate) const MOST_NUMBERS: usize = 64;

// Whether a piece fits a rectangle of this length and width: that of a plate, a segment or a strip, so the two are no one thing's.
fn is_inside(o: &Oriented, length: u16, width: u16) -> bool
    ensures { result ≡ inside length width o.now }
{
    o.along <= length && o.across <= width
}

// A kind in one of its turns; a turn is that of a row, so a number.
fn oriented(kind: &Kind, number: u8, turned: u8) -> Oriented
    ensures { result ≡ in_turn number turned kind.now }
{
    Oriented {
        kind: number,
        turned,
        along: kind.panel.along_size(turned),
        across: kind.panel.across_size(turned),
        value: kind.value,
    }
}

// Whether a kind in a turn counts: it is wanted, the turn is allowed, and the piece fits the plate.
fn counts(kind: &Kind, o: &Oriented, length: u16, width: u16) -> bool
    ensures { result ≡ is_counted length width kind.now (turn_allowed kind.now o.now.turned) o.now }
{
    kind.wanted && (o.turned == 0 || kind.panel.may_turn) && is_inside(o, length, width)
}

// Appends the number of a kind in a turn, if it counts.
fn push_turn(
    numbers: &mut ArrayVec<Oriented, MOST_NUMBERS>,
    kind: &Kind,
    number: u8,
    turned: u8,
    length: u16,
    width: u16,
)
    requires { array_vec_len numbers.old < 64 }
    ensures few { array_vec_len numbers.new ≤ array_vec_len numbers.old + 1 }
    ensures put { numbers.new.items ≡ numbers.old.items ++ keep (is_counted length width kind.now (turn_allowed kind.now turned) (in_turn number turned kind.now)) (in_turn number turned kind.now) [] }
{
    let o = oriented(kind, number, turned);
    if counts(kind, &o, length, width) {
        numbers.push(o);
    }
}

// The numbers that count, lowest first. The place of a kind is below 32, so `as` loses nothing of it.
pub(crate) fn counted(kinds: &[Kind], length: u16, width: u16) -> ArrayVec<Oriented, MOST_NUMBERS>
    requires { size kinds.now ≤ 32 }
    ensures few { array_vec_len result ≤ 64 }
    ensures counted { result.items ≡ numbers_from length width 0 kinds.now }
{
    let mut numbers = ArrayVec::new();
    for (i, kind) in kinds.iter().enumerate() {
        push_turn(&mut numbers, kind, i as u8, 0, length, width);
        push_turn(&mut numbers, kind, i as u8, 1, length, width);
    }
    numbers
}

// The numbers that fit a rectangle.
pub(crate) fn fitting(
    numbers: &[Oriented],
    length: u16,
    width: u16,
) -> ArrayVec<Oriented, MOST_NUMBERS>
    requires { size numbers.now ≤ 64 }
    ensures { result.items ≡ filter (inside length width) numbers.now }
{
    let mut held = ArrayVec::new();
    for o in numbers {
        if is_inside(o, length, width) {
            held.push(*o);
        }
    }
    held
}
