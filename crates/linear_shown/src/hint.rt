//! Facts that showed forms: they are tried before others are sought. Nothing is owed for what is remembered, as two that are tried are judged as any others.

use std::alloc::AllocError;
use std::cell::Cell;

/// So many forms are remembered; of those that share a slot the last one.
const HINTS: u32 = 1_024;

/// So many pairs of facts are remembered: a few show most of what is asked of many facts, each time with other factors. To try them all in vain takes about a
/// microsecond for a form of four registers, and to search among 64 facts five times that.
const PAIRS: u32 = 32;

/// The key of a form, and the places of the two facts with their factors.
#[derive(Clone, Copy)]
pub struct Hint {
    pub key: u128,
    pub first: usize,
    pub a: u32,
    pub second: usize,
    pub b: u32,
}

/// The places of two facts that made a form up, and the lower halves of their keys.
#[derive(Clone, Copy)]
pub struct Pair {
    pub first: usize,
    pub first_key: u64,
    pub second: usize,
    pub second_key: u64,
}

/// Makes the slots, where there are none yet.
pub fn make_hints(hints: &mut Vec<Cell<Hint>>) -> Result<(), AllocError> {
    if !hints.is_empty() {
        return Ok(());
    }
    for _ in 0..HINTS {
        hints.push(Cell::new(Hint {
            key: 0,
            first: 0,
            a: 1,
            second: 0,
            b: 1,
        }))?;
    }
    Ok(())
}

/// Makes the slots of pairs, where there are none yet.
pub fn make_pairs(pairs: &mut Vec<Cell<Option<Pair>>>) -> Result<(), AllocError> {
    if !pairs.is_empty() {
        return Ok(());
    }
    for _ in 0..PAIRS {
        pairs.push(Cell::new(None))?;
    }
    Ok(())
}

/// The slot of a key; none where there are no slots.
fn slot_of(hints: &[Cell<Hint>], key: u128) -> Option<&Cell<Hint>> {
    if hints.is_empty() {
        return None;
    }
    hints.get((key % hints.len() as u128) as usize)
}

/// Remembers two facts.
pub fn remember(hints: &[Cell<Hint>], hint: Hint) {
    if let Some(slot) = slot_of(hints, hint.key) {
        slot.set(hint);
    }
}

/// What is remembered of a form of this key.
pub fn hint_of(hints: &[Cell<Hint>], key: u128) -> Option<Hint> {
    let hint = slot_of(hints, key)?.get();
    if hint.key == key { Some(hint) } else { None }
}

/// Puts two facts into the first slot; the others move on by one, and those of the last are forgotten.
pub fn remember_pair(pairs: &[Cell<Option<Pair>>], pair: Pair) {
    let mut moved = Some(pair);
    for slot in pairs {
        moved = slot.replace(moved);
    }
}

/// The lower half of a key.
pub fn lower_half(key: u128) -> u64 {
    (key % 18_446_744_073_709_551_616) as u64
}

/// Whether the lower halves of two keys, the first one a times and the second one b times, come to that of a form's key: what every key has added to its
/// value, 2^100, is not in them.
pub fn comes_to(pair: Pair, a: u32, b: u32, key: u64) -> bool {
    let first = pair.first_key.wrapping_mul(u64::from(a));
    let second = pair.second_key.wrapping_mul(u64::from(b));
    first.wrapping_add(second) == key
}
