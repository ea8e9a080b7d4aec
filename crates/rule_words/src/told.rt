//! A rule as it is printed (`rule_text`), by its number.

use crate::rule::{Numbered, Rule};
use crate::rules::numbered;
use lists::{OutOfMemory, TextBuffer};
use std::alloc::Global;

fn push_rule(out: &mut TextBuffer, number: u16, rule: &Rule) {
    let Rule {
        reported_at,
        means,
        mend,
        example,
    } = rule;
    writeln!(out, "{number}: {means}");
    writeln!(out, "  reported at: {reported_at}");
    writeln!(out, "  mend: {mend}");
    writeln!(out, "  example: {example}");
}

/// The rule of a number with an example and how to mend it, in lines that end with LF; none where no rule has the number.
pub fn rule_text(alloc: Global, number: u16) -> Result<Option<String>, OutOfMemory> {
    let Some(rules) = numbered(number) else {
        return Ok(None);
    };
    let mut out = TextBuffer::new(alloc);
    match rules {
        Numbered::One(rule) => push_rule(&mut out, number, rule),
        Numbered::Two {
            annotation,
            instruction,
        } => {
            push_rule(&mut out, number, annotation);
            push_rule(&mut out, number, instruction);
        }
    }
    Ok(Some(out.finish()?))
}
