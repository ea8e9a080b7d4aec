//! Phis of a loop's head that rise together: where each way round the loop raises one by as much as two others, as where a merge takes from the one side or
//! the other.

use crate::edge::{phi_in, value_from};
use crate::guess::{exactly_apart, start_of};
use crate::heap::Heap;
use crate::sum::Sum;
use lists::Name;
use syntax::{Function, Operand, Phi};

/// The most phis of a head that are compared.
const MOST_PHIS: usize = 8;

/// A phi of a loop's head, and what it takes from round to round.
#[derive(Clone, Copy)]
struct Riser<'a> {
    phi: &'a Phi,
    next: &'a str,
    /// The phi that this is, where several ways come together.
    joined: Option<&'a Phi>,
    start: &'a Operand,
}

/// What a phi takes from round to round: what it is made into by a number, or another phi.
fn riser_of<'a>(heap: &'a Heap, function: &'a Function, phi: &'a Phi) -> Option<Riser<'a>> {
    let name = phi.register.as_str();
    for entry in phi.entries.as_slice() {
        if let Operand::Register(next) = &entry.value {
            let next = next.as_str();
            let joined = phi_in(function, next);
            if joined.is_some() || exactly_apart(heap, function, next, name).is_some() {
                let Some(start) = start_of(phi, next) else {
                    return None;
                };
                return Some(Riser {
                    phi,
                    next,
                    joined,
                    start,
                });
            }
        }
    }
    None
}

impl<'a> Riser<'a> {
    /// By how much the phi rises where ways come together from a block of this label; none where that is no number.
    fn step_from(self, heap: &'a Heap, function: &'a Function, label: &Name) -> Option<i128> {
        let name = self.phi.register.as_str();
        let Some(joined) = self.joined else {
            return exactly_apart(heap, function, self.next, name);
        };
        match value_from(joined, label) {
            Some(Operand::Register(value)) => exactly_apart(heap, function, value.as_str(), name),
            _ => None,
        }
    }

    /// So many times what it has risen by.
    fn risen(self, heap: &'a Heap, times: i128) -> Sum<'a> {
        let mut sum = Sum::of_register(heap, self.phi.register.as_str(), times);
        sum.add_operand(self.start, 0i128.saturating_sub(times));
        sum
    }
}

/// Whether one rises by as much as another one and so many times a third, on each way that comes together where the second is joined.
fn is_balanced<'a>(
    heap: &'a Heap,
    function: &'a Function,
    whole: Riser<'a>,
    one: Riser<'a>,
    other: Riser<'a>,
    sign: i128,
) -> bool {
    let Some(joined) = one.joined else {
        return false;
    };
    for entry in joined.entries.as_slice() {
        let label = &entry.predecessor;
        match (
            whole.step_from(heap, function, label),
            one.step_from(heap, function, label),
            other.step_from(heap, function, label),
        ) {
            (Some(all), Some(first), Some(second)) => {
                if all != first.saturating_add(second.saturating_mul(sign)) {
                    return false;
                }
            }
            _ => return false,
        }
    }
    true
}

/// The phis of a head, but for one, that take from round to round what several ways bring.
fn parts_beside<'a>(
    heap: &'a Heap,
    function: &'a Function,
    name: &str,
    phis: &'a [Phi],
) -> Vec<Riser<'a>> {
    let mut parts = heap.list();
    for phi in phis {
        if phi.register.as_str() != name && parts.len() < MOST_PHIS {
            match riser_of(heap, function, phi) {
                Some(riser) if riser.joined.is_some() => heap.push(&mut parts, riser),
                _ => {}
            }
        }
    }
    parts
}

/// What one has risen by, less what another one and so many times a third have, where that stays 0 from round to round.
fn balance_of<'a>(
    heap: &'a Heap,
    function: &'a Function,
    whole: Riser<'a>,
    one: Riser<'a>,
    other: Riser<'a>,
    sign: i128,
) -> Option<Sum<'a>> {
    if !is_balanced(heap, function, whole, one, other, sign) {
        return None;
    }
    let mut balance = whole.risen(heap, 1);
    balance.add(&one.risen(heap, 1), -1);
    balance.add(&other.risen(heap, sign), -1);
    Some(balance)
}

/// What a phi of a head has risen by, less what two others have together or apart, where that stays 0 from round to round.
pub fn balances_of<'a>(
    heap: &'a Heap,
    function: &'a Function,
    phi: &'a Phi,
    phis: &'a [Phi],
) -> Vec<Sum<'a>> {
    let mut balances = heap.list();
    let Some(whole) = riser_of(heap, function, phi) else {
        return balances;
    };
    let parts = parts_beside(heap, function, whole.phi.register.as_str(), phis);
    for (number, one) in parts.iter().enumerate() {
        for (place, other) in parts.iter().enumerate() {
            for sign in &[1i128, -1] {
                if place == number || *sign > 0 && place < number {
                    continue;
                }
                if let Some(balance) = balance_of(heap, function, whole, *one, *other, *sign) {
                    heap.push(&mut balances, balance);
                }
            }
        }
    }
    balances
}
