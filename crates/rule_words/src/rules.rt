//! The rules, by their numbers. `docs/make-rules` makes the tables of `docs/RULES.md` of them.

mod costs;
mod names;
mod numbers;
mod schedules;
mod tasks;
mod text;
mod values;
mod zones;

use crate::rule::{Numbered, Rule};

/// The rules of a number.
pub(crate) fn numbered(number: u16) -> Option<Numbered> {
    let rule = match number / 100 {
        1 => text::rule_of(number),
        2 => names::rule_of(number),
        3 => tasks::rule_of(number),
        4 => values::rule_of(number),
        5 => numbers::rule_of(number),
        6 => zones::rule_of(number),
        7 => return costs::rules_of(number),
        9 => schedules::rule_of(number),
        _ => None,
    };
    Some(Numbered::One(rule?))
}

/// Whether a rule has the number.
pub fn is_rule(number: u16) -> bool {
    numbered(number).is_some()
}

/// The rule of a number that this line of a module breaks.
pub fn rule_of(number: u16, broken: &str) -> Option<&'static Rule> {
    match numbered(number)? {
        Numbered::One(rule) => Some(rule),
        Numbered::Two { annotation, .. } if broken.starts_with(";!") => Some(annotation),
        Numbered::Two { instruction, .. } => Some(instruction),
    }
}
