//! From a refused text to all faults of its phase, in the order in which they are told (diagnostics).

ghost use Rattle.std.specs.Prelude.{◌≡◌, IfOk};
ghost use Rattle.explain.specs.Verdict.{IsVerdictOn};

use crate::accepted::remarks;
use crate::access::zone_findings;
use crate::alloca::alloca_finding;
use crate::note::name_finding;
use crate::report::Explanation;
use crate::tries::with_judged_tries;
use crate::word::word_findings;
use explain_facts::{Finding, Matched, Source, match_text, number_findings, told_cost_findings};
use lists::{ListBuffer, OutOfMemory, Seq, TextBuffer};
use ranges::Unanswered;
use std::alloc::Global;
use std::hash::RandomState;
use verifier::{Effort, Refused, Unverified, verify_within};

/// The faults of the phase of numbers, zones or costs.
fn program_findings(
    alloc: Global,
    source: Source<'_>,
    number: u16,
    effort: &Effort,
) -> Result<Vec<Finding>, Unanswered> {
    match match_text(alloc, source.state, source.text.as_bytes(), true)? {
        Some(matched) => phase_findings(alloc, source, number, &matched, effort),
        None => Ok(Vec::new(alloc)),
    }
}

/// The same of a text that the phases before take.
fn phase_findings(
    alloc: Global,
    source: Source<'_>,
    number: u16,
    matched: &Matched,
    effort: &Effort,
) -> Result<Vec<Finding>, Unanswered> {
    if number < 600 {
        number_findings(alloc, source, matched, effort)
    } else if number < 700 {
        let findings = zone_findings(alloc, source, matched, effort)?;
        with_judged_tries(alloc, source, findings.as_slice(), effort)
    } else {
        told_cost_findings(alloc, Some(source), matched, effort)
    }
}

/// The faults of the phase of the one that the verifier names, as far as they are told.
fn findings_of(
    alloc: Global,
    source: Source<'_>,
    number: u16,
    line: u32,
    effort: &Effort,
) -> Result<Vec<Finding>, Unanswered> {
    if number >= 500 {
        return program_findings(alloc, source, number, effort);
    }
    if number < 200 {
        return Ok(word_findings(alloc, source, number, line)?);
    }
    let mut findings: Vec<Finding> = Vec::new(alloc);
    findings.push(finding_of(alloc, source, number, line, effort)?)?;
    Ok(findings)
}

/// The fault of a phase of which only the first one is told.
fn finding_of(
    alloc: Global,
    source: Source<'_>,
    number: u16,
    line: u32,
    effort: &Effort,
) -> Result<Finding, Unanswered> {
    if number == 402 {
        alloca_finding(alloc, source, line, effort)
    } else {
        Ok(name_finding(alloc, source, number, line)?)
    }
}

/// What is to be told where the verifier names this fault: of it, and of the others of its phase in the order of their lines, those last that may
/// follow from earlier ones. Where the effort is spent, that no more is told.
fn told_of(
    alloc: Global,
    source: Source<'_>,
    number: u16,
    line: u32,
    effort: &Effort,
) -> Result<(Finding, Seq<Finding>), OutOfMemory> {
    match findings_of(alloc, source, number, line, effort) {
        Ok(findings) => parted(alloc, findings, number, line),
        Err(Unanswered::OutOfEffort) => {
            let mut notes = String::new(alloc);
            notes.push_str("  the effort is spent: no more is told\n")?;
            let first = Finding {
                number,
                line,
                cause: None,
                follows: false,
                notes,
            };
            Ok((first, Seq::new(alloc)))
        }
        Err(Unanswered::OutOfMemory) => Err(OutOfMemory),
    }
}

/// What is told of this fault, and the others, in their order.
fn parted(
    alloc: Global,
    findings: Vec<Finding>,
    number: u16,
    line: u32,
) -> Result<(Finding, Seq<Finding>), OutOfMemory> {
    let mut cause = None;
    let mut notes = TextBuffer::new(alloc);
    let mut others: ListBuffer<Finding> = ListBuffer::new(alloc);
    for finding in findings {
        if finding.number == number && finding.line == line {
            cause = cause.or(finding.cause);
            notes.push_str(finding.notes.as_str());
        } else {
            others.push(finding);
        }
    }
    let others = in_order(others)?;
    let first = Finding {
        number,
        line,
        cause,
        follows: false,
        notes: notes.finish()?,
    };
    Ok((first, others))
}

/// Faults in the order of their lines, those last that may follow from earlier ones.
fn in_order(findings: ListBuffer<Finding>) -> Result<Seq<Finding>, OutOfMemory> {
    let mut findings = findings.finish()?;
    findings.sort_by_key(|finding| (finding.follows, finding.line, finding.number))?;
    Ok(Seq::from_vec(findings))
}

/// Why a module's text is refused, or what it could do without. Its names are hashed with `state`.
///
/// Its first fault is the one that the verifier names. Of numbers, zones and costs all faults are told, of the text those that lines have by
/// themselves, of the other phases the first one. What is said of a text that is not UTF-8 is that fault alone. All is searched for within this effort:
/// where it is spent before a verdict, there is none, and where it is spent after it, what is left is not told.
pub fn explain(
    alloc: Global,
    state: RandomState,
    text: &[u8],
    effort: &Effort,
) -> Result<Explanation, OutOfMemory>
    ensures verdict { IfOk result (IsVerdictOn text.now effort.now) }
{
    let source = Source {
        text: str::from_utf8(text).unwrap_or(""),
        state,
    };
    match verify_within(alloc, state, text, effort) {
        Ok(verified) => Ok(Explanation::Accepted {
            remarks: remarks(alloc, source, verified.program(), effort)?,
        }),
        Err(Unverified::Refused(Refused::Fault { number, line })) => {
            let (told, others) = told_of(alloc, source, number, line, effort)?;
            let first = Finding {
                number,
                line,
                ..told
            };
            Ok(Explanation::Refused { first, others })
        }
        Err(Unverified::Refused(Refused::Memory)) => Err(OutOfMemory),
        Err(Unverified::OutOfEffort { .. }) => Ok(Explanation::Undecided),
    }
}
