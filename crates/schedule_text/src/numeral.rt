//! Numbers without sign and leading zeros.

ghost use Rattle.std.specs.Prelude.{◌≡◌, ◌<◌, ◌≤◌, ◌^◌, ℕ, min, IfSome, IfNone};
ghost use Rattle.schedule_text.specs.ScheduleText.{IsNumeral};

use ir_lex::{is_numeral, small_value};

/// The number that a word spells; the greatest `u64` stands for each number above it.
pub fn number_of(word: &[u8]) -> Option<u64>
    ensures number { IfSome result (λ n. (m : ℕ) × IsNumeral word.now m × (n ≡ min m 18446744073709551615)) }
    ensures none { IfNone result ((m : ℕ) → IsNumeral word.now m → ⊥) }
{
    if !is_numeral(word) {
        return None;
    }
    match small_value(word) {
        Some(value) => Some(value),
        None => Some(u64::MAX),
    }
}

/// The number that a word spells, where it is at most `most`.
pub fn number_to(most: u64, word: &[u8]) -> Option<u64>
    requires { most < 18446744073709551615 }
    ensures number { IfSome result (λ n. IsNumeral word.now n × (n ≤ most)) }
    ensures none { IfNone result ((m : ℕ) → IsNumeral word.now m → m ≤ most → ⊥) }
{
    match number_of(word) {
        Some(number) if number <= most => Some(number),
        _ => None,
    }
}

/// The number that a word spells, where it is below 2^64.
pub fn read_number(word: &[u8]) -> Option<u64>
    ensures number { IfSome result (IsNumeral word.now) }
    ensures none { IfNone result ((m : ℕ) → IsNumeral word.now m → m < 2 ^ 64 → ⊥) }
{
    if is_numeral(word) {
        small_value(word)
    } else {
        None
    }
}
