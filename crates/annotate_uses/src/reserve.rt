//! What a loop may hold in reserve for the loops within it: where one of these goes on from where the round before stopped, its rounds are counted over all
//! rounds of the outer loop together, and not anew in each.

use crate::ring::{Ring, least_of};
use annotate_facts::{Known, Sum, block_at, is_phi};

/// The most reserves of a loop that are tried.
const MOST_RESERVES: usize = 32;

/// Reserves of a loop, while they are gathered.
#[derive(Drop)]
struct Finder<'w, 'a> {
    known: &'w Known<'a>,
    ring: &'w Ring<'a>,
    reserves: Vec<Sum<'a>>,
}

impl<'a> Finder<'_, 'a> {
    /// Tries so many times a phi, less the least that this may be.
    fn push(&mut self, name: &'a str, times: i128) {
        let own = Sum::of_register(self.known.heap, name, times);
        if let Some(least) = least_of(self.known, self.ring.head, &own) {
            if self.reserves.len() < MOST_RESERVES {
                let reserve = own.raised(0i128.saturating_sub(least));
                self.known.heap.push(&mut self.reserves, reserve);
            }
        }
    }

    /// Tries so many times each phi of the head that the rank has not.
    fn push_phis(&mut self, times: i128) {
        let known = self.known;
        if let Some(head) = block_at(known.function, self.ring.head) {
            for phi in head.phis.as_slice() {
                let name = phi.register.as_str();
                if !self.ring.rank.has(name) {
                    self.push(name, times);
                }
            }
        }
    }

    /// Tries as much as pays for the rounds of a loop within, by each of the phis that lead it round.
    fn push_inner(&mut self, inner: &Ring<'a>) {
        let known = self.known;
        let Some(head) = block_at(known.function, inner.head) else {
            return;
        };
        for (name, coefficient) in &inner.rank.terms {
            if is_phi(head.phis.as_slice(), name) {
                let cost = inner.instructions.saturating_mul(*coefficient);
                let over = inner.step.saturating_sub(1);
                let over = if cost < 0 {
                    0i128.saturating_sub(over)
                } else {
                    over
                };
                let times = cost
                    .saturating_add(over)
                    .checked_div(inner.step)
                    .unwrap_or(0);
                self.push_phis(times);
            }
        }
    }
}

/// What a loop may hold in reserve for the loops within it.
pub fn reserves_of<'w, 'a>(
    known: &'w Known<'a>,
    rings: &[Ring<'a>],
    ring: &'w Ring<'a>,
) -> Vec<Sum<'a>> {
    let mut finder = Finder {
        known,
        ring,
        reserves: known.heap.list(),
    };
    for inner in rings {
        if inner.head != ring.head && ring.has(inner.head) {
            finder.push_inner(inner);
        }
    }
    finder.reserves
}
