//! How forms and what is shown of them are spelled, with the names of the text.

use crate::scene::Scene;
use ir_annotation::sign_text;
use linear::{Form, Term, side_of};
use lists::TextBuffer;

/// A number so far from 0 is a bound of a width, and stands on a side of its own.
const FAR: u128 = 1_000_000_000;

/// What is spelled of a form.
#[derive(Clone, Copy)]
enum Part {
    Whole,
    Positive,
    /// What has a minus, without it.
    Negative,
}

impl Part {
    /// What of a number belongs to it.
    fn of(self, number: i128) -> i128 {
        match self {
            Part::Whole => number,
            Part::Positive => number.max(0),
            Part::Negative => 0i128.saturating_sub(number).max(0),
        }
    }
}

/// Registers times numbers, as far as they belong to a part of a form, and a number.
#[derive(Clone, Copy)]
struct Spelled<'a> {
    scene: &'a Scene<'a>,
    terms: &'a [Term],
    part: Part,
    constant: i128,
}

impl<'a> Spelled<'a> {
    fn of(scene: &'a Scene<'a>, form: &'a Form, part: Part) -> Spelled<'a> {
        let side = side_of(form);
        Spelled {
            scene,
            terms: side.terms,
            part,
            constant: part.of(side.constant),
        }
    }

    fn has_no_terms(self) -> bool {
        for term in self.terms {
            if self.part.of(i128::from(term.coefficient)) != 0 {
                return false;
            }
        }
        true
    }

    /// The term that comes behind this name in the order of the registers' names.
    fn term_behind(self, last: &str) -> Option<(&'a str, i128)> {
        let mut next: Option<(&'a str, i128)> = None;
        for term in self.terms {
            let coefficient = self.part.of(i128::from(term.coefficient));
            let name = self.scene.register(term.register);
            let is_next = match next {
                Some((nearest, _)) => name < nearest,
                None => true,
            };
            if coefficient != 0 && name > last && is_next {
                next = Some((name, coefficient));
            }
        }
        next
    }

    fn push_to(self, out: &mut TextBuffer) {
        let mut last = "";
        for _term in self.terms {
            if let Some((name, coefficient)) = self.term_behind(last) {
                out.push_str(sign_text(last.is_empty(), coefficient));
                let size = coefficient.unsigned_abs();
                if size != 1 {
                    write!(out, "{size}*");
                }
                write!(out, "%{name}");
                last = name;
            }
        }
        self.push_constant(last.is_empty(), out);
    }

    /// The number after the registers; 0 only where it stands alone.
    fn push_constant(self, is_alone: bool, out: &mut TextBuffer) {
        let constant = self.constant;
        if constant > 0 && !is_alone {
            out.push_str("+");
        }
        if constant != 0 || is_alone {
            write!(out, "{constant}");
        }
    }
}

/// What the word of so many things ends with.
pub fn plural(count: i128) -> &'static str {
    if count == 1 { "" } else { "s" }
}

/// A form, as the canonical text spells it.
pub fn push_form(scene: &Scene<'_>, form: &Form, out: &mut TextBuffer) {
    Spelled::of(scene, form, Part::Whole).push_to(out);
}

/// That a form is at least 0: what has a minus on the lesser side, the rest on the other; a number far from 0 by itself.
pub(crate) fn push_inequality(scene: &Scene<'_>, form: &Form, out: &mut TextBuffer) {
    let low = Spelled::of(scene, form, Part::Negative);
    let high = Spelled::of(scene, form, Part::Positive);
    let has_no_low = low.has_no_terms();
    let has_no_high = high.has_no_terms();
    if has_no_low && has_no_high || form.constant.unsigned_abs() < FAR {
        if has_no_low {
            push_both(high, " >= ", low, out)
        } else {
            push_both(low, " <= ", high, out)
        }
    } else if has_no_high {
        push_bounded(low, " <= ", form.constant, out)
    } else {
        let whole = Spelled::of(scene, form, Part::Whole);
        push_bounded(whole, " >= ", 0i128.saturating_sub(form.constant), out)
    }
}

fn push_both(left: Spelled<'_>, relation: &str, right: Spelled<'_>, out: &mut TextBuffer) {
    left.push_to(out);
    out.push_str(relation);
    right.push_to(out);
}

/// Registers beside a number that bounds them.
fn push_bounded(registers: Spelled<'_>, relation: &str, bound: i128, out: &mut TextBuffer) {
    let registers = Spelled {
        constant: 0,
        ..registers
    };
    registers.push_to(out);
    write!(out, "{relation}{bound}");
}

/// How far the sides of an inequality may be from where they are to be: by so much.
pub(crate) fn push_excess(scene: &Scene<'_>, form: &Form, amount: i128, out: &mut TextBuffer) {
    let low = Spelled::of(scene, form, Part::Negative);
    let high = Spelled::of(scene, form, Part::Positive);
    let (first, word, second) = if low.has_no_terms() {
        (high, "less", low)
    } else {
        (low, "more", high)
    };
    first.push_to(out);
    write!(out, " may be {amount} {word} than ");
    second.push_to(out);
}
