//! Faults of zones with what they touch: one that touches no more than an earlier one of its task does may follow from that.

use crate::zone_text::as_written;
use explain_facts::{Finding, Means};
use footprints::covers;
use linear_shown::Known;
use lists::TextBuffer;
use program::Zone;
use ranges::Unanswered;

/// How many faults others are compared with.
const MOST_KEPT: usize = 32;

/// What a task touches. The line behind which its zones stand tells the task.
#[derive(Drop)]
pub struct Touched {
    pub task: u32,
    pub zones: Vec<Zone>,
}

/// A fault, and what is touched there.
#[derive(Drop)]
pub struct Found {
    pub number: u16,
    pub line: u32,
    pub notes: TextBuffer,
    pub touched: Touched,
}

/// Whether one of these zones has all that another one touches, whatever is known.
fn is_within(means: &Means<'_>, nothing: &Known<'_>, zones: &[Zone], zone: &Zone) -> bool {
    let y = as_written(zone);
    for other in zones {
        if means.is_so(covers(means.alloc, nothing, &as_written(other), &y)) {
            return true;
        }
    }
    false
}

/// Whether something is touched, and no more than something else of the task.
fn is_part(means: &Means<'_>, nothing: &Known<'_>, whole: &Touched, part: &Touched) -> bool {
    if whole.task != part.task || part.zones.is_empty() {
        return false;
    }
    for zone in &part.zones {
        if !is_within(means, nothing, whole.zones.as_slice(), zone) {
            return false;
        }
    }
    true
}

/// Whether a fault that touches this may follow from one of those before it.
fn follows_one(
    means: &Means<'_>,
    nothing: &Known<'_>,
    before: &[Touched],
    touched: &Touched,
) -> bool {
    for other in before {
        if is_part(means, nothing, other, touched) {
            return true;
        }
    }
    false
}

/// The faults, which are in the order of their lines, each with whether it may follow from an earlier one.
pub fn told(means: &Means<'_>, founds: Vec<Found>) -> Result<Vec<Finding>, Unanswered> {
    let findings = findings_of(means, founds);
    means.finish()?;
    Ok(findings)
}

/// The same, as far as memory and effort reach.
fn findings_of(means: &Means<'_>, founds: Vec<Found>) -> Vec<Finding> {
    let cursor = means.cursor(&[]);
    let nothing = cursor.known();
    let mut before: Vec<Touched> = Vec::new(means.alloc);
    let mut findings: Vec<Finding> = Vec::new(means.alloc);
    for found in founds {
        let Found {
            number,
            line,
            notes,
            touched,
        } = found;
        let finding = Finding {
            number,
            line,
            cause: None,
            follows: follows_one(means, &nothing, before.as_slice(), &touched),
            notes: means.text(notes),
        };
        if !finding.follows && before.len() < MOST_KEPT {
            means.push(&mut before, touched);
        }
        means.push(&mut findings, finding);
    }
    findings
}
