//! Exact sums of products of 64-bit numbers, in two words (multiword arithmetic).

ghost use Rattle.std.specs.Prelude.{◌≡◌, ◌+◌, ◌^◌, ◌<◌, ◌≤◌, pos, ◌+ℤ◌, ◌*ℤ◌, int_le, unsigned_abs};
ghost use Rattle.store.specs.Sums.{number_of};

/// A whole number: `high` times 2^64, and `low`. A form has as many terms as memory holds, so its value may be past 128 bits.
#[derive(Clone, Copy)]
pub(crate) struct Sum {
    high: i128,
    low: u64,
}

/// 2^64
const WORD: i128 = 18_446_744_073_709_551_616;

/// The product of two numbers of 64 bits has at most 127.
fn product(left: i64, right: i64) -> i128
    ensures value { result ≡ left *ℤ right }
    ensures small { unsigned_abs result ≤ 2 ^ 126 }
{
    i128::from(left) * i128::from(right)
}

/// `high` times 2^64, and the rest, of which the multiples of 2^64 go to the higher part.
fn carried(high: i128, rest: i128) -> Sum
    requires { unsigned_abs high + 2 ^ 64 < 2 ^ 127 }
    ensures { number_of result ≡ (high *ℤ pos (2 ^ 64)) +ℤ rest }
{
    Sum {
        high: high + rest.div_euclid(WORD),
        low: rest.rem_euclid(WORD) as u64,
    }
}

impl Sum {
    pub(crate) fn of(number: i128) -> Sum
        ensures { number_of result ≡ number }
    {
        carried(0, number)
    }

    /// The sum with one more product. From any number of 128 bits on there may be 2^64 of them.
    pub(crate) fn plus_product(self, left: i64, right: i64) -> Sum
        requires { unsigned_abs (number_of self) ≤ 2 ^ 190 + 2 ^ 127 }
        ensures value { number_of result ≡ number_of self +ℤ (left *ℤ right) }
        ensures small { unsigned_abs (number_of result) ≤ unsigned_abs (number_of self) + 2 ^ 126 }
    {
        carried(self.high, i128::from(self.low) + product(left, right))
    }

    pub(crate) fn is_at_most(self, other: Sum) -> bool
        ensures { result ≡ int_le (number_of self) (number_of other) }
    {
        if self.high == other.high {
            self.low <= other.low
        } else {
            self.high < other.high
        }
    }
}
