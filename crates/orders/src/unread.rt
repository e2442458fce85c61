// Why a text was not read.
use text::place::Place;

#[derive(Clone, Copy, Debug, PartialEq, Eq)]
pub enum Unread {
    // the text is at fault, first at this place
    Fault(Place),
    // the text is lawful and not too long, and there was no memory to keep what it says
    Memory,
}
