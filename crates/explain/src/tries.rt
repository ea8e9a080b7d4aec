//! Lines of zones to try, as far as no other rule refuses them (suggested fixes).

use crate::access::zone_findings;
use explain_facts::{Finding, Means, Put, Source, taken, with_line};
use lists::{ListBuffer, TextBuffer};
use ranges::Unanswered;
use std::alloc::Global;
use verifier::Effort;

/// The steps that a byte of a text counts for whose line is tried.
const STEPS_A_BYTE: usize = 100;

/// A text with lines put in.
#[derive(Clone, Copy)]
struct Trial<'a> {
    means: &'a Means<'a>,
    source: Source<'a>,
    /// What is refused without them.
    findings: &'a [Finding],
}

/// The number of a line at the end of a sentence.
fn number_of(text: &str) -> u32 {
    text.parse::<u32>().unwrap_or(0)
}

impl Trial<'_> {
    /// Whether the rule of this number refuses something without the lines.
    fn has_rule(self, number: u16) -> bool {
        for finding in self.findings {
            if finding.number == number {
                return true;
            }
        }
        false
    }

    /// Whether a rule of zones refuses nothing of a text with a line that it does not refuse without it; no where that is not found out.
    fn is_taken(self, text: &str) -> bool {
        let means = self.means;
        let source = Source {
            text,
            state: self.source.state,
        };
        let steps = text.len().saturating_mul(STEPS_A_BYTE);
        let Some(matched) = taken(means, source, steps) else {
            return false;
        };
        let found = zone_findings(means.alloc, source, &matched, means.effort);
        let Some(found) = means.kept(found) else {
            return false;
        };
        for finding in &found {
            if !self.has_rule(finding.number) {
                return false;
            }
        }
        true
    }

    /// Whether a sentence may be told: it offers no line, or one that no other rule refuses, as far as the effort reaches to see that.
    fn may_be_told(self, told: &str) -> bool {
        let Some(words) = told.strip_prefix("    try: ") else {
            return true;
        };
        let (line, put) = if let Some((line, after)) = words.split_once(", after line ") {
            (line, Put::Before(number_of(after).saturating_add(1)))
        } else if let Some((line, number)) = words.split_once(", in place of line ") {
            (line, Put::InPlaceOf(number_of(number)))
        } else {
            return true;
        };
        let changed = with_line(self.means.alloc, self.source.text, put, line);
        self.is_taken(self.means.made(changed).as_str())
    }

    /// What is told of a fault without the lines that another rule refuses.
    fn judged(self, notes: &str) -> TextBuffer {
        let mut kept = TextBuffer::new(self.means.alloc);
        for told in notes.lines() {
            if self.may_be_told(told) {
                kept.push_str(told);
                kept.push_str("\n");
            }
        }
        kept
    }
}

/// What is refused of zones, where no line is offered that another rule refuses, as one by which children overlap. Where the effort is spent, no more lines
/// are offered.
pub fn with_judged_tries(
    alloc: Global,
    source: Source<'_>,
    findings: &[Finding],
    effort: &Effort,
) -> Result<Vec<Finding>, Unanswered> {
    let means = Means::new(alloc, effort);
    let trial = Trial {
        means: &means,
        source,
        findings,
    };
    let mut told = ListBuffer::new(alloc);
    for finding in findings {
        told.push(Finding {
            number: finding.number,
            line: finding.line,
            cause: finding.cause,
            follows: finding.follows,
            notes: trial.judged(finding.notes.as_str()).finish()?,
        });
    }
    match means.finish() {
        Err(Unanswered::OutOfMemory) => Err(Unanswered::OutOfMemory),
        Ok(()) | Err(Unanswered::OutOfEffort) => Ok(told.finish()?),
    }
}
