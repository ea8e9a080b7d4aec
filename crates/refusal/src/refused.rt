//! Why a module is refused: a rule with its line, or want of memory (the verifier's error type).

ghost use Rattle.std.specs.Prelude.{◌≡◌};
ghost use Rattle.refusal.specs.declared.refused.Refused.TheVariants.{Fault, Memory};

use crate::broken::Broken;
use lists::OutOfMemory;
use std::alloc::{AllocError, AllocFailed};
use thiserror::Error;

/// Why a module is refused. It is shown as `NUMBER line L` or `memory`.
#[derive(Clone, Copy, Debug, PartialEq, Eq, Drop, Error)]
pub enum Refused {
    /// A rule of the module's phase is broken: its number, from 101 to 902, and the line that breaks it, counted from 1.
    #[error("{number} line {line}")]
    Fault { number: u16, line: u32 },
    /// Memory was refused.
    #[error("memory")]
    Memory,
}

impl From<Broken> for Refused {
    ghost from_gives = { λ broken e. e ≡ Fault broken.number broken.line };

    fn from(broken: Broken) -> Refused {
        Refused::Fault {
            number: broken.number,
            line: broken.line,
        }
    }
}

impl From<OutOfMemory> for Refused {
    ghost from_gives = { λ _ e. e ≡ Memory };

    fn from(_error: OutOfMemory) -> Refused {
        Refused::Memory
    }
}

impl From<AllocError> for Refused {
    ghost from_gives = { λ _ e. e ≡ Memory };

    fn from(_error: AllocError) -> Refused {
        Refused::Memory
    }
}

impl<T: Drop> From<AllocFailed<T>> for Refused {
    ghost from_gives = { λ _ e. e ≡ Memory };

    fn from(_error: AllocFailed<T>) -> Refused {
        Refused::Memory
    }
}
