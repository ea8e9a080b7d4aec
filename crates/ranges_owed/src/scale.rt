//! Products of which one operand is a number within a million, so that they are linear.

ghost use Rattle.std.specs.Prelude.{◌≡◌, true, IfSome};
ghost use Rattle.ranges_owed.specs.Scales.{is_scale, scale_number, scale_of};

use crate::sum::Part;
use program::Operand;

/// A number within a million.
fn scale_number(operand: Operand) -> Option<i64>
    ensures { result ≡ scale_number operand }
{
    match operand {
        Operand::Number(number) => {
            if -1_000_000 <= number && number <= 1_000_000 {
                Some(number)
            } else {
                None
            }
        }
        Operand::Register(_) => None,
    }
}

/// A product as a number within a million times an operand.
pub fn scale_of(left: Operand, right: Operand) -> Option<Part>
    ensures value { result ≡ scale_of left right }
    ensures scale { IfSome result (λ p. is_scale p.factor ≡ true) }
{
    match (scale_number(right), scale_number(left)) {
        (Some(factor), _) => Some(Part {
            factor,
            operand: left,
        }),
        (None, Some(factor)) => Some(Part {
            factor,
            operand: right,
        }),
        (None, None) => None,
    }
}
