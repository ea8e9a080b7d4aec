//! Numbers without sign, and their values.

ghost use Rattle.std.specs.Prelude.{◌≡◌, true};
ghost use Rattle.ir_lex.specs.Numerals.{is_numeral, small_value};

use crate::spelling::is_positive;

/// Whether these are the digits of a number without leading zeros.
pub fn is_numeral(bytes: &[u8]) -> bool
    ensures { result ≡ is_numeral bytes.now }
{
    match bytes {
        [] => false,
        [first, rest @ ..] => (*first == b'0' && rest.is_empty()) || is_positive(bytes),
    }
}

/// The value of digits, where it is below 2^64.
pub fn small_value(digits: &[u8]) -> Option<u64>
    requires { is_numeral digits.now ≡ true }
    ensures { result ≡ small_value digits.now }
{
    match str::from_utf8(digits) {
        Err(_) => None,
        Ok(text) => match text.parse::<u64>() {
            Err(_) => None,
            Ok(value) => Some(value),
        },
    }
}
