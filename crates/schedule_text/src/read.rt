//! From the text of a schedule to its list of events (parser).

ghost use Rattle.std.specs.Prelude.{◌≡◌, ◌++◌, ◌∷◌, ◌≤◌, ◌<◌, ◌↔◌, ◌⊎◌, ◌+◌, ℕ, List, length, IfSome, IfNone, IfOk, IfErr, IsTrue, true, false};
ghost use Rattle.schedule_text.specs.declared.line.Line as line_type;
ghost use Rattle.schedule_text.specs.ScheduleText.{IsSpelled, IsSchedule, Differs, stepper, line_events, most};
ghost use Rattle.schedule_text.specs.Reading.{capped, IsNext, IsFault};

use crate::fault::ScheduleFault;
use crate::line::{Line, cut_at, read_line};
use frame::Event;
use lists::OutOfMemory;
use std::alloc::Global;

/// The greatest number of bytes, and of events.
const MOST: usize = 1_048_576;

/// The worker whose steps the line holds.
fn stepper(line: &Line) -> Option<u8>
    ensures { result ≡ stepper line.now }
{
    match line {
        Line::Steps { worker, .. } => Some(*worker),
        Line::Steals { .. } => None,
    }
}

/// Whether the lines' steps are not of one worker.
fn differs(before: Option<u8>, next: Option<u8>) -> bool
    ensures { IsTrue result ↔ Differs before next }
{
    match (before, next) {
        (Some(one), Some(other)) => one != other,
        _ => true,
    }
}

/// The first line, where it may follow the steps of such a worker, and what follows it.
fn next_line(
    alloc: Global,
    before: Option<u8>,
    text: &[u8],
) -> Result<Option<(Line, &[u8])>, OutOfMemory>
    ensures some { IfOk result (λ found. IfSome found (λ r. IsNext before text.now r.0 r.1.now)) }
    ensures none { IfOk result (λ found. IfNone found ((l : line_type.Line) (line after : List ℕ) → text.now ≡ line ++ 10 ∷ after → IsSpelled line l
        → Differs before (stepper l) → ⊥)) }
{
    match cut_at(b'\n', text) {
        None => Ok(None),
        Some((line, after)) => match read_line(alloc, line)? {
            None => Ok(None),
            Some(found) => {
                if differs(before, stepper(&found)) {
                    Ok(Some((found, after)))
                } else {
                    Ok(None)
                }
            }
        },
    }
}

/// How many events the line stands for.
fn count_of(line: &Line) -> u64
    ensures { result ≡ length (line_events line.now) }
{
    match line {
        Line::Steps { count, .. } => *count,
        Line::Steals { .. } => 1,
    }
}

/// Whether so many bytes, or so many events with the line's, pass the limits.
fn is_over(bytes: usize, events: &[Event], line: &Line) -> bool
    requires { length events.now ≤ most }
    ensures over { result ≡ true → (most < bytes) ⊎ (most < length events.now + length (line_events line.now)) }
    ensures within { result ≡ false → (bytes ≤ most) × (length events.now + length (line_events line.now) ≤ most) }
{
    bytes > MOST || count_of(line) > (MOST - events.len()) as u64
}

/// Adds the line's events.
fn put(events: &mut Vec<Event>, line: Line) -> Result<(), OutOfMemory>
    ensures { IfOk result (λ _. events.new.items ≡ events.old.items ++ line_events line) }
{
    match line {
        Line::Steps { worker, count } => {
            for _ in 0..count {
                events.push(Event::Step(worker))?;
            }
        }
        Line::Steals { worker, task } => events.push(Event::Steal(worker, task))?,
    }
    Ok(())
}

/// The list of events that a text spells: at most 1,048,576, in as many bytes.
///
/// Each line is `step W N` for N steps of the worker W, one after another, or `steal W PATH` for a steal of the task of
/// this name, and ends with LF. W is 0 to 63. PATH is `root` and the numbers of the frames on the way down, each behind a
/// dot and at most 1,000,000,000,000. Numbers have no sign and no leading zeros, one space parts words, and two lines with
/// steps of one worker never follow each other.
///
/// # Errors
///
/// `BadLine` (901) names the first line that is none, and `TooLong` (902) the line with which bytes or events pass the limit.
pub fn read_schedule(alloc: Global, text: &[u8]) -> Result<Vec<Event>, ScheduleFault>
    ensures ok { IfOk result (λ events. IsSchedule text.now events.items) }
    ensures fault { IfErr result (λ e. IsFault text.now e) }
{
    let mut events = Vec::new(alloc);
    let mut rest = text;
    let mut before = None;
    let mut number: u32 = 1;
    while !rest.is_empty() {
        match next_line(alloc, before, rest)? {
            None => return Err(ScheduleFault::BadLine(number)),
            Some((line, after)) => {
                if is_over(text.len() - after.len(), events.as_slice(), &line) {
                    return Err(ScheduleFault::TooLong(number));
                }
                before = stepper(&line);
                put(&mut events, line)?;
                rest = after;
                number += 1;
            }
        }
    }
    Ok(events)
}
