// Why reading a text stopped.
ghost use Rattle.std.specs.Prelude.{◌≡◌};
ghost use Rattle.text.specs.Many.{stop_of};
ghost use Rattle.text.specs.declared.stop.Stop.TheVariants.{Fault as StopFault, Memory as StopMemory};

use crate::fields::Fault;
use crate::lines::Broken;
use std::alloc::AllocFailed;

// At a fault, or for want of memory.
#[derive(Clone, Copy, Debug, PartialEq, Eq)]
pub enum Stop<'a> {
    Fault(Fault<'a>),
    Memory,
}

impl<'a> From<Fault<'a>> for Stop<'a> {
    ghost from_gives = { λ f s. s ≡ StopFault f };

    fn from(fault: Fault<'a>) -> Stop<'a> {
        Stop::Fault(fault)
    }
}

impl<'a> From<Broken<'a>> for Stop<'a> {
    ghost from_gives = { λ b s. s ≡ stop_of b };

    fn from(broken: Broken<'a>) -> Stop<'a> {
        match broken {
            Broken::Line(_, fault) => Stop::Fault(fault),
            Broken::Memory => Stop::Memory,
        }
    }
}

impl<'a, T: Drop> From<AllocFailed<T>> for Stop<'a> {
    ghost from_gives = { λ _ s. s ≡ StopMemory };

    fn from(_refused: AllocFailed<T>) -> Stop<'a> {
        Stop::Memory
    }
}
