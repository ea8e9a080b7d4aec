//! Why a question is not answered, and why a program is not verified.

ghost use Rattle.std.specs.Prelude.{◌≡◌, ◌⊎◌, ℕ, Some};
ghost use Rattle.refusal.specs.declared.refused.Refused.TheVariants.{Fault, Memory};
ghost use Rattle.ranges.specs.declared.unverified.Unverified.TheVariants.{Refused as RefusedBy, OutOfEffort as NotJudged};

use linear_shown::{Effort, OutOfEffort};
use lists::OutOfMemory;
use refusal::{Broken, Refused};
use std::alloc::{AllocError, AllocFailed};

/// Why a question of what is known at a place is not answered.
#[derive(Clone, Copy, Debug, PartialEq, Eq)]
pub enum Unanswered {
    /// Memory was refused.
    OutOfMemory,
    /// The effort that is granted is spent.
    OutOfEffort,
}

impl From<OutOfMemory> for Unanswered {
    fn from(_error: OutOfMemory) -> Unanswered {
        Unanswered::OutOfMemory
    }
}

impl From<AllocError> for Unanswered {
    fn from(_error: AllocError) -> Unanswered {
        Unanswered::OutOfMemory
    }
}

impl<T: Drop> From<AllocFailed<T>> for Unanswered {
    fn from(_error: AllocFailed<T>) -> Unanswered {
        Unanswered::OutOfMemory
    }
}

impl From<OutOfEffort> for Unanswered {
    fn from(_error: OutOfEffort) -> Unanswered {
        Unanswered::OutOfEffort
    }
}

/// Where effort is not bounded, memory alone is wanting.
impl From<Unanswered> for OutOfMemory {
    fn from(_error: Unanswered) -> OutOfMemory {
        OutOfMemory
    }
}

/// Why a text or a program is not verified.
#[derive(Clone, Copy, Debug, PartialEq, Eq)]
pub enum Unverified {
    /// It is refused, or memory was.
    Refused(Refused),
    /// So many steps of effort were granted, and are spent. So there is no verdict.
    OutOfEffort { granted: u64 },
}

impl From<Broken> for Unverified {
    ghost from_gives = { λ broken e. e ≡ RefusedBy (Fault broken.number broken.line) };

    fn from(broken: Broken) -> Unverified {
        Unverified::Refused(Refused::Fault {
            number: broken.number,
            line: broken.line,
        })
    }
}

impl From<Refused> for Unverified {
    ghost from_gives = { λ refused e. e ≡ RefusedBy refused };

    fn from(refused: Refused) -> Unverified {
        Unverified::Refused(refused)
    }
}

impl From<OutOfMemory> for Unverified {
    ghost from_gives = { λ _ e. e ≡ RefusedBy Memory };

    fn from(_error: OutOfMemory) -> Unverified {
        Unverified::Refused(Refused::Memory)
    }
}

impl Unanswered {
    /// Why a text is not verified where a question was not answered within this effort. What is not bounded is never spent, so memory alone is wanting there.
    pub fn within(self, effort: &Effort) -> Unverified
        ensures { (result ≡ RefusedBy Memory) ⊎ ((granted : ℕ) × (result ≡ NotJudged granted) × (effort.now ≡ Some granted)) }
    {
        match (self, effort.granted()) {
            (Unanswered::OutOfEffort, Some(granted)) => Unverified::OutOfEffort { granted },
            _ => Unverified::Refused(Refused::Memory),
        }
    }
}
