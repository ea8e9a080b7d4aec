//! The limits of names and numbers in annotations, and what a word says with whether it keeps them.

ghost use Rattle.std.specs.Prelude.{◌≡◌, ◌≤◌};
ghost use Rattle.ir_annotation.specs.Limits.{up_to, narrowed};

/// What a word says, and whether the names and numbers in it are within their limits. A number past its limit stands in it as 0.
#[derive(Drop)]
pub struct Limited<T> {
    pub value: T,
    pub is_within_limits: bool,
}

/// The bytes of the longest name.
pub const NAME_MOST: usize = 64;

/// The greatest size of a number, a coefficient and a constant of a form: 2^63 - 1.
pub const FORM_MOST: u64 = 9_223_372_036_854_775_807;

/// The greatest bound of a measure.
pub const MEASURE_MOST: u64 = 4_096;

/// The greatest number of a budget.
pub const BUDGET_MOST: u64 = 1_000_000_000_000;

/// A number with the limit `most`; `None` stands for a number of 2^64 at least.
pub fn up_to(most: u64, number: Option<u64>) -> Limited<u64>
    ensures value { result ≡ up_to most number }
    ensures small { result.value ≤ most }
{
    match number {
        Some(number) if number <= most => Limited {
            value: number,
            is_within_limits: true,
        },
        _ => Limited {
            value: 0,
            is_within_limits: false,
        },
    }
}

/// A sum of coefficients or of constants, whose size may be 2^63 - 1 at most.
pub fn narrowed(sum: i128) -> Limited<i64>
    ensures { result ≡ narrowed sum }
{
    if -9_223_372_036_854_775_807 <= sum && sum <= 9_223_372_036_854_775_807 {
        Limited {
            value: sum as i64,
            is_within_limits: true,
        }
    } else {
        Limited {
            value: 0,
            is_within_limits: false,
        }
    }
}
