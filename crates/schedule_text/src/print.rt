//! From a list of events to the text of a schedule (printer).

ghost use Rattle.std.specs.Prelude.{◌≡◌, ◌≢◌, ◌++◌, ◌≤◌, ◌<◌, ◌↔◌, [], ℕ, List, length, flat_map, take, IfOk, IfNone, IfSome, IsTrue, OnOk, string_bytes};
ghost use Rattle.std.specs.List.{prefix_len};
ghost use Rattle.schedule_text.specs.ScheduleText.{IsSchedule};
ghost use Rattle.schedule_text.specs.Printing.{is_step_of, child_text, steps_text, steal_text, first_count, first_text};

use crate::fault::ScheduleFault;
use crate::read::read_schedule;
use frame::{Event, Path};
use itoa::Buffer;
use lists::OutOfMemory;
use std::alloc::{AllocError, Global};

/// Whether the event is a step of the worker.
fn is_step_of(worker: u8, event: &Event) -> bool
    ensures { result ≡ is_step_of worker event.now }
{
    match event {
        Event::Step(stepping) => *stepping == worker,
        Event::Steal(_, _) => false,
    }
}

/// How many steps of the worker stand in front.
fn steps_in_front(worker: u8, events: &[Event]) -> usize
    ensures value { result ≡ prefix_len (is_step_of worker) events.now }
    ensures within { result ≤ length events.now }
{
    events
        .iter()
        .take_while(|event| is_step_of(worker, event))
        .count()
}

fn push_steps(out: &mut String, worker: u8, count: usize) -> Result<(), AllocError>
    ensures { OnOk result (string_bytes out.new ≡ string_bytes out.old ++ steps_text worker count) }
{
    out.push_str("step ")?;
    out.push_str(Buffer::new().format(worker))?;
    out.push_str(" ")?;
    out.push_str(Buffer::new().format(count))?;
    out.push_str("\n")
}

fn push_children(out: &mut String, numbers: &[u64]) -> Result<(), AllocError>
    ensures { OnOk result (string_bytes out.new ≡ string_bytes out.old ++ flat_map child_text numbers.now) }
{
    for number in numbers {
        out.push_str(".")?;
        out.push_str(Buffer::new().format(*number))?;
    }
    Ok(())
}

fn push_steal(out: &mut String, worker: u8, task: &Path) -> Result<(), AllocError>
    ensures { OnOk result (string_bytes out.new ≡ string_bytes out.old ++ steal_text worker task.now.numbers) }
{
    out.push_str("steal ")?;
    out.push_str(Buffer::new().format(worker))?;
    out.push_str(" root")?;
    push_children(out, task.numbers.as_slice())?;
    out.push_str("\n")
}

/// Adds the line that begins with this event, the first of the list, and answers how many events it stands for.
fn push_first(out: &mut String, first: &Event, events: &[Event]) -> Result<usize, AllocError>
    requires { 0 < length events.now }
    ensures text { IfOk result (λ _. string_bytes out.new ≡ string_bytes out.old ++ first_text first.now events.now) }
    ensures count { IfOk result (λ count. count ≡ first_count first.now events.now) }
    ensures within { IfOk result (λ count. count ≤ length events.now) }
{
    match first {
        Event::Step(worker) => {
            let count = steps_in_front(*worker, events);
            push_steps(out, *worker, count)?;
            Ok(count)
        }
        Event::Steal(worker, task) => {
            push_steal(out, *worker, task)?;
            Ok(1)
        }
    }
}

/// The only text that may spell the events.
fn printed(alloc: Global, events: &[Event]) -> Result<String, OutOfMemory>
    ensures { IfOk result (λ text. (other : List ℕ) → IsSchedule other events.now → other ≡ string_bytes text) }
{
    let mut text = String::new(alloc);
    let mut rest = events;
    while !rest.is_empty() {
        let count = push_first(&mut text, &rest[0], rest)?;
        rest = rest.split_at(count).1;
    }
    Ok(text)
}

/// The text that spells the events; there is just one.
///
/// The caller's condition: there is one within the limits. So workers are 0 to 63, the numbers of paths are at most
/// 1,000,000,000,000, and events and bytes at most 1,048,576.
pub fn print_schedule(alloc: Global, events: &[Event]) -> Result<String, OutOfMemory>
    requires { (text : List ℕ) × IsSchedule text events.now }
    ensures spelled { IfOk result (λ text. IsSchedule (string_bytes text) events.now) }
    ensures one { IfOk result (λ text. (other : List ℕ) → IsSchedule other events.now → other ≡ string_bytes text) }
{
    let text = printed(alloc, events)?;
    Ok(text)
}

/// Whether both are the same event.
fn is_same(a: &Event, b: &Event) -> bool
    ensures { IsTrue result ↔ (a.now ≡ b.now) }
{
    match (a, b) {
        (Event::Step(a), Event::Step(b)) => a == b,
        (Event::Steal(a, task), Event::Steal(b, other)) => a == b && task.is_same(other),
        _ => false,
    }
}

/// Whether both are the same events.
fn are_same(a: &[Event], b: &[Event]) -> bool
    ensures { IsTrue result ↔ (a.now ≡ b.now) }
{
    if a.len() != b.len() {
        return false;
    }
    for place in 0..a.len() {
        if !is_same(&a[place], &b[place]) {
            return false;
        }
    }
    true
}

/// Whether the text spells the events.
fn spells(alloc: Global, text: &[u8], events: &[Event]) -> Result<bool, OutOfMemory>
    ensures { IfOk result (λ does. IsTrue does ↔ IsSchedule text.now events.now) }
{
    match read_schedule(alloc, text) {
        Ok(read) => Ok(are_same(read.as_slice(), events)),
        Err(ScheduleFault::BadLine(_)) => Ok(false),
        Err(ScheduleFault::TooLong(_)) => Ok(false),
        Err(ScheduleFault::Memory) => Err(OutOfMemory),
    }
}

/// The text that spells the events; none where there is none within the limits: it is read again to tell.
///
/// # Errors
///
/// Memory was refused.
#[tactic(auto, using(crate::proofs::Faults::no_other))]
pub fn spell_schedule(alloc: Global, events: &[Event]) -> Result<Option<String>, OutOfMemory>
    ensures spelled { IfOk result (λ found. IfSome found (λ text. IsSchedule (string_bytes text) events.now)) }
    ensures none { IfOk result (λ found. IfNone found ((text : List ℕ) → IsSchedule text events.now → ⊥)) }
{
    let text = printed(alloc, events)?;
    if spells(alloc, text.as_bytes(), events)? {
        Ok(Some(text))
    } else {
        Ok(None)
    }
}
