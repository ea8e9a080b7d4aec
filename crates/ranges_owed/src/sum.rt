//! Sums of operands times numbers (affine expressions), and obligations: one of some sums is at least 0.

ghost use Rattle.std.specs.Prelude.{◌≡◌, ◌++◌, ◌∷◌, [], negsuc, ◌*ℤ◌, true, IfOk};
ghost use Rattle.ranges_owed.specs.Scales.{is_scale};
ghost use Rattle.ranges_owed.specs.Sums.{one, two};

use lists::{OutOfMemory, Seq};
use program::Operand;
use std::alloc::Global;

/// An operand times a number.
#[derive(Clone, Copy)]
pub struct Part {
    pub factor: i64,
    pub operand: Operand,
}

/// A sum of operands times numbers, and a number.
#[derive(Drop)]
pub struct Sum {
    pub constant: i128,
    pub parts: Seq<Part>,
}

/// What the rule of this number asks: one of the choices is shown to be at least 0.
#[derive(Drop)]
pub struct Obligation {
    pub number: u16,
    pub choices: Seq<Sum>,
}

impl Sum {
    /// constant + a * x
    pub fn one(alloc: Global, constant: i128, a: i64, x: Operand) -> Result<Sum, OutOfMemory>
        ensures { IfOk result (λ s. s ≡ one constant a x) }
    {
        let mut parts = Seq::new(alloc);
        parts.push(Part {
            factor: a,
            operand: x,
        })?;
        Ok(Sum { constant, parts })
    }

    /// This sum with a * x added.
    pub fn plus(self, a: i64, x: Operand) -> Result<Sum, OutOfMemory>
        ensures { IfOk result (λ s. s
            ≡ record { constant = self.constant; parts = self.parts ++ record { factor = a; operand = x } ∷ [] }) }
    {
        let Sum {
            constant,
            mut parts,
        } = self;
        parts.push(Part {
            factor: a,
            operand: x,
        })?;
        Ok(Sum { constant, parts })
    }

    /// constant + a * x + b * y
    pub fn two(
        alloc: Global,
        constant: i128,
        a: i64,
        x: Operand,
        b: i64,
        y: Operand,
    ) -> Result<Sum, OutOfMemory>
        ensures { IfOk result (λ s. s ≡ two constant a x b y) }
    {
        Sum::one(alloc, constant, a, x)?.plus(b, y)
    }
}

/// The factor of the opposite.
pub fn opposite(factor: i64) -> i64
    requires { is_scale factor ≡ true }
    ensures { result ≡ negsuc 0 *ℤ factor }
{
    -1 * factor
}
