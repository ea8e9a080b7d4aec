//! Why a file has no numbers for a global: a word that is none, with its line and column; or want of memory.

ghost use Rattle.std.specs.Prelude.{◌≡◌};
ghost use Rattle.cli_words.specs.declared.io.fault.DataFault.TheVariants.{Memory};

use std::alloc::{AllocError, AllocFailed};

/// Why a text has no numbers.
#[derive(Clone, Copy)]
pub enum DataFault {
    /// The word that begins here is no number of 64 bits. Lines and columns are counted from 1, columns by bytes.
    NoNumber { line: usize, column: usize },
    /// Memory was refused.
    Memory,
}

impl From<AllocError> for DataFault {
    ghost from_gives = { λ _ e. e ≡ Memory };

    fn from(_error: AllocError) -> DataFault {
        DataFault::Memory
    }
}

impl<T: Drop> From<AllocFailed<T>> for DataFault {
    ghost from_gives = { λ _ e. e ≡ Memory };

    fn from(_error: AllocFailed<T>) -> DataFault {
        DataFault::Memory
    }
}
