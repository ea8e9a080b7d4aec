//! Why a form could not be made: a number passes its bounds, or memory was refused.

ghost use Rattle.std.specs.Prelude.{◌≡◌};
ghost use Rattle.linear.specs.declared.fault.FormFault.TheVariants.{Memory};

use std::alloc::{AllocError, AllocFailed};
use thiserror::Error;

/// A coefficient or the constant would pass the bounds of a form, or memory was refused.
#[derive(Clone, Copy, Debug, PartialEq, Eq, Error)]
pub enum FormFault {
    #[error("a form past its bounds")]
    Bounds,
    #[error("out of memory")]
    Memory,
}

impl From<AllocError> for FormFault {
    ghost from_gives = { λ _ e. e ≡ Memory };

    fn from(_error: AllocError) -> FormFault {
        FormFault::Memory
    }
}

impl<T: Drop> From<AllocFailed<T>> for FormFault {
    ghost from_gives = { λ _ e. e ≡ Memory };

    fn from(_error: AllocFailed<T>) -> FormFault {
        FormFault::Memory
    }
}
