//! What facts about one register alone say of it: its least and its greatest number (interval).

ghost use Rattle.std.specs.Prelude.{◌≡◌, ◌<◌, ◌^◌, ◌⊎◌, ◌∷◌, [], pos, negsuc, List, All, Contains, IfOk, IfSome, OnOk, length, slice_index_or, unsigned_abs};
ghost use Rattle.linear.specs.declared.form.Fact.{Fact as FactKind};
ghost use Rattle.footprints_zones.specs.declared.bounds.RegisterBounds.{RegisterBounds as BoundsKind};
ghost use Rattle.footprints_zones.specs.Ends.{Says, AreBounds};

use linear::{Fact, RegisterId, side_of};
use lists::OutOfMemory;
use std::alloc::Global;

/// So many facts are looked at, those that a block begins with: most bounds stand there.
const FIRST: usize = 64;

/// The greatest number that a register is at least by one fact alone, and the least that it is at most.
#[derive(Clone, Copy)]
pub struct RegisterBounds {
    pub register: RegisterId,
    pub least: Option<i64>,
    pub most: Option<i64>,
}

/// What a fact about one register alone says: that the register times 1 or -1, and a number, are at least 0.
#[derive(Clone, Copy)]
struct Saying {
    register: RegisterId,
    sign: i64,
    number: i128,
}

/// Where no fact is known.
pub fn unbounded(register: RegisterId) -> RegisterBounds
    ensures register { result.register ≡ register }
    ensures bounds { (facts : List FactKind) → AreBounds facts result }
{
    RegisterBounds {
        register,
        least: None,
        most: None,
    }
}

/// What a fact says, where it is about one register alone.
fn said_by(fact: &Fact) -> Option<Saying>
    ensures form { IfSome result (λ s. fact.now.form ≡ record { terms = record { register = s.register; coefficient = s.sign } ∷ []; constant = s.number }) }
    ensures sign { IfSome result (λ s. (s.sign ≡ pos 1) ⊎ (s.sign ≡ negsuc 0)) }
    ensures small { IfSome result (λ s. unsigned_abs s.number < 2 ^ 100) }
{
    let side = side_of(&fact.form);
    match side.terms {
        [term] => {
            if term.coefficient == 1 || term.coefficient == -1 {
                Some(Saying {
                    register: term.register,
                    sign: term.coefficient,
                    number: side.constant,
                })
            } else {
                None
            }
        }
        _ => None,
    }
}

/// The greater of two numbers, of which one may be absent.
fn greater(one: Option<i64>, other: i64) -> Option<i64>
    ensures { (result ≡ Some other) ⊎ (result ≡ one) }
{
    match one {
        Some(number) if other <= number => one,
        Some(_) | None => Some(other),
    }
}

/// The lesser of two numbers, of which one may be absent.
fn lesser(one: Option<i64>, other: i64) -> Option<i64>
    ensures { (result ≡ Some other) ⊎ (result ≡ one) }
{
    match one {
        Some(number) if number <= other => one,
        Some(_) | None => Some(other),
    }
}

/// Bounds of a register with what one more fact says of it. A number that no register has bounds nothing.
fn with_saying(bounds: RegisterBounds, said: Saying) -> RegisterBounds
    requires register { said.register ≡ bounds.register }
    requires sign { (said.sign ≡ pos 1) ⊎ (said.sign ≡ negsuc 0) }
    requires small { unsigned_abs said.number < 2 ^ 100 }
    ensures register { result.register ≡ bounds.register }
    ensures bounds { (facts : List FactKind) → AreBounds facts bounds → Says facts said.register said.sign said.number → AreBounds facts result }
{
    if said.sign == 1 {
        match i64::try_from(0 - said.number) {
            Ok(least) => RegisterBounds {
                register: bounds.register,
                least: greater(bounds.least, least),
                most: bounds.most,
            },
            Err(_) => bounds,
        }
    } else {
        match i64::try_from(said.number) {
            Ok(most) => RegisterBounds {
                register: bounds.register,
                least: bounds.least,
                most: lesser(bounds.most, most),
            },
            Err(_) => bounds,
        }
    }
}

/// Where the bounds of a register stand.
fn place_of(bounds: &[RegisterBounds], register: RegisterId) -> Option<usize>
    ensures within { IfSome result (λ k. k < length bounds.now) }
    ensures own { IfSome result (λ k. (d : BoundsKind) → (slice_index_or bounds.now k d).register ≡ register) }
{
    for k in 0..bounds.len() {
        if bounds[k].register == register {
            return Some(k);
        }
    }
    None
}

/// Adds what one more fact says.
fn note(bounds: &mut Vec<RegisterBounds>, said: Saying) -> Result<(), OutOfMemory>
    requires sign { (said.sign ≡ pos 1) ⊎ (said.sign ≡ negsuc 0) }
    requires small { unsigned_abs said.number < 2 ^ 100 }
    ensures { (facts : List FactKind) → All (AreBounds facts) bounds.old.items → Says facts said.register said.sign said.number
        → OnOk result (All (AreBounds facts) bounds.new.items) }
{
    match place_of(bounds.as_slice(), said.register) {
        Some(k) => bounds[k] = with_saying(bounds[k], said),
        None => bounds.push(with_saying(unbounded(said.register), said))?,
    }
    Ok(())
}

/// Adds what a fact says, where it is about one register alone.
fn note_fact(bounds: &mut Vec<RegisterBounds>, fact: &Fact) -> Result<(), OutOfMemory>
    ensures { (facts : List FactKind) → Contains facts fact.now → All (AreBounds facts) bounds.old.items → OnOk result (All (AreBounds facts) bounds.new.items) }
{
    match said_by(fact) {
        Some(said) => note(bounds, said),
        None => Ok(()),
    }
}

/// Bounds of registers by the first facts.
pub fn register_bounds(alloc: Global, facts: &[Fact]) -> Result<Vec<RegisterBounds>, OutOfMemory>
    ensures { IfOk result (λ bounds. All (AreBounds facts.now) bounds.items) }
{
    let mut bounds = Vec::new(alloc);
    for index in 0..facts.len().min(FIRST) {
        note_fact(&mut bounds, &facts[index])?;
    }
    Ok(bounds)
}

/// The bounds of a register; none where they are not among these.
pub fn bounds_for(bounds: &[RegisterBounds], register: RegisterId) -> RegisterBounds
    ensures register { result.register ≡ register }
    ensures bounds { (facts : List FactKind) → All (AreBounds facts) bounds.now → AreBounds facts result }
{
    match place_of(bounds, register) {
        Some(k) => bounds[k],
        None => unbounded(register),
    }
}
