//! Zones that have what others have: the ends of a line to put in.

use crate::zone_text::placed_form;
use explain_facts::{Known, Means, coefficient, raised, shortfall};
use footprints::{PlacedZone, mode_covers};
use linear::Form;
use lists::ListBuffer;
use program::{Mode, ObjectName, Operand, RegisterId, Zone};
use ranges::{Move, Sum};

/// A number that no end of a zone is past: 2^40.
const FAR: i128 = 1_099_511_627_776;

/// So much below 0.
const FAR_BELOW: i128 = -1_099_511_627_776;

/// The greatest number that a sum is known to be at least, where so much less than the sum is given.
fn least_number(known: Known<'_>, far_less: &Sum) -> Option<i128> {
    let Some(far_less) = known.means.form(far_less) else {
        return None;
    };
    match shortfall(known.means, known.facts, &far_less) {
        Some(short) => Some(FAR.saturating_sub(short)),
        None => None,
    }
}

/// A number that a form is known to be at least, as a form.
pub fn lowest(known: Known<'_>, form: &Form) -> Option<Form> {
    let means = known.means;
    match least_number(known, &means.plus(means.sum(FAR_BELOW), &[], form)) {
        Some(least) => means.form(&means.sum(least)),
        None => None,
    }
}

/// An old end where one form is known to be at least another, else a new one.
fn kept(known: Known<'_>, high: &Form, low: &Form, old: &Form, new: &Form) -> Form {
    let end = if known.is_at_least(high, low) {
        old
    } else {
        new
    };
    known.means.copy(end)
}

/// A mode that has what both have.
fn both_modes(a: Mode, b: Mode) -> Mode {
    if mode_covers(a, b) {
        a
    } else if mode_covers(b, a) {
        b
    } else {
        Mode::Writes
    }
}

/// A zone with the ends of an old one, where they are shown to reach `here` as far as what is touched, and else with those of a new one.
pub fn widened(known: Known<'_>, old: &Zone, here: &Zone, touched: &Zone, new: &Zone) -> Zone {
    Zone {
        line: old.line,
        mode: both_modes(old.mode, touched.mode),
        object: old.object,
        low: kept(known, &touched.low, &here.low, &old.low, &new.low),
        high: kept(known, &here.high, &touched.high, &old.high, &new.high),
    }
}

/// A zone of this object with these ends, where both are known.
pub fn with_ends(
    zone: &Zone,
    object: ObjectName,
    low: Option<Form>,
    high: Option<Form>,
) -> Option<Zone> {
    match (low, high) {
        (Some(low), Some(high)) => Some(Zone {
            line: zone.line,
            mode: zone.mode,
            object,
            low,
            high,
        }),
        _ => None,
    }
}

/// A zone that is touched, in the registers of its own function.
pub fn touched_zone(means: &Means<'_>, y: &PlacedZone<'_>) -> Option<Zone> {
    let low = placed_form(means, y.moves, &y.zone.low);
    let high = placed_form(means, y.moves, &y.zone.high);
    with_ends(y.zone, y.object, low, high)
}

/// The one of two ends that reaches further: ours where one form is known to be at least another, the other one where it is known to be at most that.
fn further(known: Known<'_>, high: &Form, low: &Form, ours: &Form, other: &Form) -> Option<Form> {
    if known.is_at_least(high, low) {
        Some(known.means.copy(ours))
    } else if known.is_at_least(low, high) {
        Some(known.means.copy(other))
    } else {
        None
    }
}

/// The least zone that has the cells of two of one object and mode, where it is known which ends that has.
pub fn both(known: Known<'_>, a: &Zone, b: &Zone) -> Option<Zone> {
    let low = further(known, &b.low, &a.low, &a.low, &b.low);
    let high = further(known, &a.high, &b.high, &a.high, &b.high);
    with_ends(a, a.object, low, high)
}

/// What is known of a zone's ends in numbers alone, where both have bounds.
pub fn in_numbers(known: Known<'_>, zone: &Zone) -> Option<Zone> {
    let means = known.means;
    let below = means.less(means.sum(FAR_BELOW), &[], &zone.high);
    let Some(below) = least_number(known, &below) else {
        return None;
    };
    let high = means.form(&means.sum(0i128.saturating_sub(below)));
    with_ends(zone, zone.object, lowest(known, &zone.low), high)
}

/// By how much what a phi takes is more than the phi, where that is known to be one number.
fn step_of(known: Known<'_>, moves: &[Move], phi: RegisterId) -> Option<i128> {
    let means = known.means;
    let Some(phi) = means.within_bounds(means.zero().plus_term(phi, 1)) else {
        return None;
    };
    let taken = means.plus(means.sum(FAR_BELOW), moves, &phi);
    let Some(least) = least_number(known, &means.less(taken, &[], &phi)) else {
        return None;
    };
    let most = means.plus(means.sum(least), &[], &phi);
    if known.shows(&means.less(most, moves, &phi)) {
        Some(least)
    } else {
        None
    }
}

/// What is to be added to a form where a phi takes its next value, so that the new value stands for the old one.
fn shift_by(known: Known<'_>, moves: &[Move], form: &Form, taken: &Move) -> Option<i128> {
    let factor = coefficient(form, taken.register);
    if factor == 0 {
        return Some(0);
    }
    let Operand::Register(_) = taken.value else {
        return None;
    };
    match step_of(known, moves, taken.register) {
        Some(step) => Some(step.saturating_mul(i128::from(factor))),
        None => None,
    }
}

/// A form at the target of an edge, in the registers there, which stand `back` in place of what phis take; none where it is not known by how much they move on.
fn at_target(known: Known<'_>, moves: &[Move], back: &[Move], form: &Form) -> Option<Form> {
    let mut shift: i128 = 0;
    for taken in moves {
        match shift_by(known, moves, form, taken) {
            Some(more) => shift = shift.saturating_sub(more),
            None => return None,
        }
    }
    match raised(known.means, form, shift) {
        Some(form) => placed_form(known.means, back, &form),
        None => None,
    }
}

/// Of each phi that takes a register along an edge, the phi in place of that.
fn moved_back(means: &Means<'_>, moves: &[Move]) -> Vec<Move> {
    let mut back = ListBuffer::new(means.alloc);
    for taken in moves {
        if let Operand::Register(register) = taken.value {
            let value = Operand::Register(taken.register);
            back.push(Move { register, value });
        }
    }
    means.list(back)
}

/// A zone at the target of an edge, in the registers there; none where it is not known by how much phis move on.
pub fn zone_at_target(known: Known<'_>, moves: &[Move], zone: &Zone) -> Option<Zone> {
    let back = moved_back(known.means, moves);
    let low = at_target(known, moves, back.as_slice(), &zone.low);
    let high = at_target(known, moves, back.as_slice(), &zone.high);
    with_ends(zone, zone.object, low, high)
}
