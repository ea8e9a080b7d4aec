//! Numbers as lines spell them, and names.

ghost use Rattle.std.specs.Prelude.{◌≡◌, ◌-◌, ◌<◌, IfOk};
ghost use Rattle.std.specs.Str.{bytes_eq};
ghost use Rattle.ir_instruction.specs.Numerals.{value_of, is_negative, is_multiple_of_eight, count_of, cells_of_bytes, is_same_number};

use crate::symbol::Numeral;
use lists::Name;
use std::alloc::AllocError;

/// The number, or 0 where it is outside `i64`.
pub fn value_of(numeral: &Numeral) -> i64
    ensures { result ≡ value_of numeral.now }
{
    match numeral {
        Numeral::Small(n) => *n,
        Numeral::Large(_) => 0,
    }
}

pub fn copy_of(numeral: &Numeral) -> Result<Numeral, AllocError>
    ensures { IfOk result (λ n. n ≡ numeral.now) }
{
    match numeral {
        Numeral::Small(n) => Ok(Numeral::Small(*n)),
        Numeral::Large(digits) => Ok(Numeral::Large(digits.copy()?)),
    }
}

pub fn is_same_name(name: &Name, other: &Name) -> bool
    ensures { result ≡ bytes_eq name.now other.now }
{
    name.as_bytes() == other.as_bytes()
}

pub fn is_same_number(numeral: &Numeral, other: &Numeral) -> bool
    ensures { result ≡ is_same_number numeral.now other.now }
{
    match numeral {
        Numeral::Small(n) => match other {
            Numeral::Small(m) => *n == *m,
            Numeral::Large(_) => false,
        },
        Numeral::Large(n) => match other {
            Numeral::Small(_) => false,
            Numeral::Large(m) => is_same_name(n, m),
        },
    }
}

fn is_negative(digits: &[u8]) -> bool
    ensures { result ≡ is_negative digits.now }
{
    match digits {
        [] => false,
        [first, ..] => *first == b'-',
    }
}

fn digit_of(byte: u8) -> u32
    ensures value { result ≡ byte - 48 }
    ensures small { result < 256 }
{
    u32::from(byte.saturating_sub(b'0'))
}

/// Judged by the last three digits.
fn is_multiple_of_eight(digits: &[u8]) -> bool
    ensures { result ≡ is_multiple_of_eight digits.now }
{
    match digits {
        [.., hundreds, tens, ones] => {
            (digit_of(*hundreds) * 100 + digit_of(*tens) * 10 + digit_of(*ones)) % 8 == 0
        }
        _ => false,
    }
}

/// A number from 1 on. One outside `i64` counts as 1.
pub fn count_of(numeral: &Numeral) -> Option<u64>
    ensures { result ≡ count_of numeral.now }
{
    match numeral {
        Numeral::Small(n) => { if *n > 0 { Some(*n as u64) } else { None } }
        Numeral::Large(digits) => {
            if is_negative(digits.as_bytes()) {
                None
            } else {
                Some(1)
            }
        }
    }
}

/// How many cells so many bytes are: a positive multiple of 8, divided by 8. One outside `i64` counts as 1.
pub fn cells_of_bytes(numeral: &Numeral) -> Option<u64>
    ensures { result ≡ cells_of_bytes numeral.now }
{
    match numeral {
        Numeral::Small(n) => {
            if *n > 0 && *n as u64 % 8 == 0 {
                Some(*n as u64 / 8)
            } else {
                None
            }
        }
        Numeral::Large(digits) => {
            if !is_negative(digits.as_bytes()) && is_multiple_of_eight(digits.as_bytes()) {
                Some(1)
            } else {
                None
            }
        }
    }
}
