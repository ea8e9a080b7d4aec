//! Why a text is no schedule: the first line with a fault, or one past the limits.

ghost use Rattle.std.specs.Prelude.{◌≡◌};
ghost use Rattle.schedule_text.specs.declared.fault.ScheduleFault.TheVariants.{Memory};

use lists::OutOfMemory;
use std::alloc::{AllocError, AllocFailed};
use thiserror::Error;

/// The first fault of a schedule's text, or no memory to look for it. Lines are counted from 1.
#[derive(Clone, Copy, Debug, Drop, PartialEq, Eq, Error)]
pub enum ScheduleFault {
    /// A line that is none, or steps of the worker whose steps stand on the line before.
    #[error("901 line {0}")]
    BadLine(u32),
    /// The line with which the text has over 1,048,576 bytes or events.
    #[error("902 line {0}")]
    TooLong(u32),
    #[error("memory")]
    Memory,
}

impl From<AllocError> for ScheduleFault {
    ghost from_gives = { λ _ e. e ≡ Memory };

    fn from(_error: AllocError) -> ScheduleFault {
        ScheduleFault::Memory
    }
}

impl From<OutOfMemory> for ScheduleFault {
    ghost from_gives = { λ _ e. e ≡ Memory };

    fn from(_error: OutOfMemory) -> ScheduleFault {
        ScheduleFault::Memory
    }
}

impl<T: Drop> From<AllocFailed<T>> for ScheduleFault {
    ghost from_gives = { λ _ e. e ≡ Memory };

    fn from(_error: AllocFailed<T>) -> ScheduleFault {
        ScheduleFault::Memory
    }
}
