//! A number for the terms of a form, by which forms are looked up (hash): their value at weights of registers.

ghost use Rattle.std.specs.Prelude.{◌≡◌, ◌<◌, ◌≤◌, ◌+◌, ◌^◌, pos, ◌+ℤ◌, ◌*ℤ◌, ◌∷◌, [], unsigned_abs, IfSome};
ghost use Rattle.linear.specs.Forms.{AreSmall};
ghost use Rattle.linear_shown.specs.Index.{spread_square, weight, weigh, one_of, IsKeyOf};

use linear::{RegisterId, Term};

/// A number of a register. Registers that stand side by side have numbers that are far apart.
fn spread_square(step: u32, register: RegisterId) -> u64
    requires { step < 2 ^ 24 }
    ensures value { result ≡ spread_square step register.0 }
    ensures small { result < 2 ^ 24 }
{
    let spread = (register.0 as u64 % 65_536 * u64::from(step) + 12_345) % 16_777_213;
    spread * spread % 16_777_213
}

/// The weight of a register: two numbers side by side, so that hardly any two forms of few registers share a value.
fn weight(register: RegisterId) -> u128
    ensures value { result ≡ weight register.0 }
    ensures small { result < 2 ^ 73 }
{
    let first = spread_square(7_368_787, register);
    let second = spread_square(3_141_601, register);
    u128::from(first) * 281_474_976_710_656 + u128::from(second)
}

/// A coefficient times the weight of its register.
fn valued(term: &Term) -> i128
    requires { unsigned_abs term.now.coefficient < 2 ^ 24 }
    ensures value { result ≡ pos (weight term.now.register.0) *ℤ term.now.coefficient }
    ensures small { unsigned_abs result < 2 ^ 97 }
{
    weight(term.register) as i128 * i128::from(term.coefficient)
}

/// A sum with the value of a term; none where it is past the range of keys.
fn added(sum: i128, term: &Term) -> Option<i128>
    requires sum { unsigned_abs sum < 2 ^ 100 }
    requires small { unsigned_abs term.now.coefficient < 2 ^ 24 }
    ensures value { IfSome result (λ r. r ≡ sum +ℤ (pos (weight term.now.register.0) *ℤ term.now.coefficient)) }
    ensures small { IfSome result (λ r. unsigned_abs r < 2 ^ 100) }
{
    let whole = sum + valued(term);
    if -1_267_650_600_228_229_401_496_703_205_376 < whole
        && whole < 1_267_650_600_228_229_401_496_703_205_376
    {
        Some(whole)
    } else {
        None
    }
}

/// The value of terms by the weights of their registers; none where it is past the range of keys, as with very many terms.
fn weigh(terms: &[Term]) -> Option<i128>
    requires { AreSmall terms.now }
    ensures value { IfSome result (λ sum. sum ≡ weigh terms.now) }
    ensures small { IfSome result (λ sum. unsigned_abs sum < 2 ^ 100) }
{
    let mut sum: i128 = 0;
    for term in terms {
        sum = added(sum, term)?;
    }
    Some(sum)
}

/// The key of terms: their value above the least one.
pub fn key_of(terms: &[Term]) -> Option<u128>
    requires { AreSmall terms.now }
    ensures { IfSome result (λ key. IsKeyOf terms.now key) }
{
    match weigh(terms) {
        Some(sum) => Some((sum + 1_267_650_600_228_229_401_496_703_205_376) as u128),
        None => None,
    }
}

/// The key of a term's register alone, with the sign of the term.
pub fn bound_key(term: &Term) -> u128
    ensures { IsKeyOf (record { register = term.now.register; coefficient = one_of term.now.coefficient } ∷ []) result }
{
    let weight = weight(term.register);
    if term.coefficient < 0 {
        1_267_650_600_228_229_401_496_703_205_376 - weight
    } else {
        1_267_650_600_228_229_401_496_703_205_376 + weight
    }
}
