//! How much searching a caller grants (resource limit, timeout). Nothing is owed for what is counted: what is answered
//! is exact, and what is left says only whether to go on asking.

ghost use Rattle.std.specs.Prelude.{◌≡◌, ◌-◌, IsSome, IsTrue, None, Some};

use std::cell::Cell;
use std::marker::Model;

/// The effort that is granted to questions of what facts show, in steps: a fact that a search goes past is one of them. Each question counts for some
/// hundreds, the more the more registers it names. A step takes some nanosecond. Contracts see how many steps are granted, if they are bounded, and
/// not what is left of them: that stands in a cell.
#[derive(Drop)]
pub struct Effort {
    granted: Option<u64>,
    left: Cell<u64>,
}

impl Model for Effort {
    ghost use Rattle.std.specs.Prelude.{Option, ℕ};

    ghost Value = { Option ℕ };

    ghost view = { λ e. e.granted };
}

/// More was asked than the effort that is granted reaches for.
#[derive(Clone, Copy, Debug, PartialEq, Eq)]
pub struct OutOfEffort;

/// What a question counts for that names so many registers: most are answered by a few lookups, and all of them try the facts that served lately, with each two factors.
fn question_steps(registers: usize) -> u64 {
    let factors = (registers as u64).saturating_add(1);
    factors
        .saturating_mul(factors)
        .saturating_mul(30)
        .saturating_add(500)
}

/// What is left once these steps are done.
fn left_after(left: u64, steps: u64) -> u64
    ensures { result ≡ left - steps }
{
    left.saturating_sub(steps)
}

impl Effort {
    /// As much as it takes.
    pub fn unlimited() -> Effort
        ensures { result ≡ None }
    {
        Effort {
            granted: None,
            left: Cell::new(0),
        }
    }

    /// So many steps.
    pub fn of(steps: u64) -> Effort
        ensures { result ≡ Some steps }
    {
        Effort {
            granted: Some(steps),
            left: Cell::new(steps),
        }
    }

    /// How many steps were granted, if they are bounded.
    pub fn granted(&self) -> Option<u64>
        ensures { result ≡ self.now }
    {
        self.granted
    }

    /// Whether nothing is left. Of what is not bounded something is.
    pub fn is_spent(&self) -> bool
        ensures { IsTrue result → IsSome self.now }
    {
        self.granted.is_some() && self.left.get() == 0
    }

    /// Counts steps.
    pub fn spend(&self, steps: u64) {
        self.left.set(left_after(self.left.get(), steps));
    }

    /// Counts a question that names so many registers.
    pub fn spend_question(&self, registers: usize) {
        self.spend(question_steps(registers));
    }

    /// Counts the entries from one place to another.
    pub fn spend_between(&self, from: usize, to: usize) {
        self.spend(to.saturating_sub(from) as u64);
    }
}
