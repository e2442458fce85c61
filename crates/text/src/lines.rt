// Reading lines of one kind, one after another.
ghost use Rattle.std.specs.Prelude.{◌≡◌, ℕ, ◌<◌, List, ◌++◌, length, MatchBool, MatchResult};
ghost use Rattle.text.specs.Texts.{Stops};
ghost use Rattle.text.specs.Many.{LineOf, LinesRead, BrokeOff};
ghost use Rattle.text.specs.declared.lines.Broken.TheVariants.{Memory as BrokenMemory};

use crate::fields::Fault;
use std::alloc::{AllocFailed, Global};

// What one line of some kind says.
pub trait Entry: Drop {
    // the line that says it
    ghost line: { Self → List ℕ };

    // its numbers are short enough
    ghost Short: { Self → Type 0 };

    // at the front of such a text one more line of this kind must stand
    ghost Next: { List ℕ → Type 0 };

    // Whether one more line must stand at the front of a text.
    fn is_next(text: &[u8]) -> bool
        ensures { MatchBool result (Next text.now) (Next text.now → ⊥) };

    // The line at the front of a text, and the text after it.
    fn read<'a>(text: &'a [u8]) -> Result<(Self, &'a [u8]), Fault<'a>>
        ensures { MatchResult result (λ x. Short x.0 × (text.now ≡ line x.0 ++ x.1.now)) (λ f. Stops (LineOf line Short) text.now f.left.now) };

    // No line is empty.
    ghost some: { (x : Self) → 0 < length (line x) };
}

// Why reading lines broke off. Unlike a Stop it tells how many lines went before, by which a plate text counts.
#[derive(Clone, Copy, Debug, PartialEq, Eq)]
pub enum Broken<'a> {
    // after so many whole lines one is at fault
    Line(usize, Fault<'a>),
    // there was no memory to keep what the lines say
    Memory,
}

impl<'a, T: Drop> From<AllocFailed<T>> for Broken<'a> {
    ghost from_gives = { λ _ b. b ≡ BrokenMemory };

    fn from(_refused: AllocFailed<T>) -> Broken<'a> {
        Broken::Memory
    }
}

// The lines of one kind at the front of a text, and the text after them.
pub fn read_lines<'a, E: Entry>(
    heap: Global,
    text: &'a [u8],
) -> Result<(Vec<E>, &'a [u8]), Broken<'a>>
    ensures { MatchResult result (λ x. LinesRead E.line E.Short E.Next text.now x.0.items x.1.now) (λ b. BrokeOff E.line E.Short E.Next text.now b) }
{
    let mut entries = Vec::new(heap);
    let mut rest = text;
    while E::is_next(rest) {
        let (entry, after) = E::read(rest).map_err(|fault| Broken::Line(entries.len(), fault))?;
        entries.push(entry)?;
        rest = after;
    }
    Ok((entries, rest))
}
