// Why a plate text was not read.
ghost use Rattle.std.specs.Prelude.{◌≡◌};
ghost use Rattle.plates.specs.declared.unread.Unread.TheVariants.{Memory as UnreadMemory};

use std::alloc::AllocFailed;

#[derive(Clone, Copy, Debug, PartialEq, Eq)]
pub enum Unread {
    // the first line that is not as it must be, counted from 1
    Line(usize),
    // there was no memory to keep what the text says
    Memory,
}

impl<T: Drop> From<AllocFailed<T>> for Unread {
    ghost from_gives = { λ _ u. u ≡ UnreadMemory };

    fn from(_refused: AllocFailed<T>) -> Unread {
        Unread::Memory
    }
}
