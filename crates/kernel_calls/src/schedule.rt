//! The call that writes what a run on threads has done, as the text of a schedule.

ghost use Rattle.std.specs.Prelude.{◌≡◌, ◌≢◌, ◌⊎◌, ◌<◌, IfErr, IfNone, IfOk, IfSome, List, None, Some, length, string_bytes, ℕ};
ghost use Rattle.frame.specs.declared.event.Event as event_value;
ghost use Rattle.schedule_text.specs.ScheduleText.{IsSchedule, most};
ghost use Rattle.kernel_calls.specs.Boards.{HasNoSchedule, IsSpelled, IsSpelledStatus, OfRun};
ghost use Rattle.kernel_calls.specs.Held.{closed};
ghost use Rattle.kernel_calls.specs.Replayed.{long_schedule};
ghost use Rattle.kernel_calls.specs.Told.{done, out_of_memory};
ghost use Rattle.kernel_calls.specs.Words.{HasNone};

use crate::block::RunBlock;
use crate::board_handle::BoardHandle;
use crate::told::{CLOSED, DONE, LONG_SCHEDULE, OUT_OF_MEMORY};
use crate::words::put;
use core::mem::replace_with;
use lists::OutOfMemory;
use schedule_text::spell_schedule;
use shared_run::Event;
use std::alloc::Global;

/// The most events of a schedule.
const MOST_EVENTS: u64 = 1_048_576;

/// The text that spells these events; or the status: memory was refused, or there is none within the limits of a schedule.
#[tactic(auto, using(crate::proofs::Spelling::too_many))]
fn spelled(alloc: Global, events: Result<Option<Vec<Event>>, OutOfMemory>) -> Result<String, u32>
    ensures spelled { IfOk result (λ text. (all : List event_value.Event) → IfOk events (λ found. IfSome found (λ own. own.items ≡ all)) →
        IsSchedule (string_bytes text) all) }
    ensures long { IfErr result (λ status. status ≡ long_schedule → (all : List event_value.Event) → IfOk events (λ found. IfSome found (λ own. own.items ≡ all)) →
        IfOk events (λ found. IfNone found (most < length all)) → (text : List ℕ) → IsSchedule text all → ⊥) }
    ensures statuses { IfErr result (λ status. (status ≡ long_schedule) ⊎ (status ≡ out_of_memory)) }
{
    match events {
        Ok(Some(events)) => match spell_schedule(alloc, events.as_slice()) {
            Ok(Some(text)) => Ok(text),
            Ok(None) => Err(LONG_SCHEDULE),
            Err(OutOfMemory) => Err(OUT_OF_MEMORY),
        },
        Ok(None) => Err(LONG_SCHEDULE),
        Err(OutOfMemory) => Err(OUT_OF_MEMORY),
    }
}

/// Writes the run's events as a schedule, as far as there is room, and how many bytes it has.
pub fn write_schedule(
    alloc: Global,
    board: &mut BoardHandle,
    out: &mut [u8],
    needed: &mut usize,
) -> u32
    ensures spelled { result ≡ done → OfRun board.old.run.state (IsSpelled out.old out.new needed.new) }
    ensures none { result ≢ done → HasNone out.old out.new needed.new }
    ensures long { result ≡ long_schedule → OfRun board.old.run.state HasNoSchedule }
    ensures closed { result ≡ closed → board.old.run.state ≡ None }
    ensures same { board.new.run.state ≡ board.old.run.state }
    ensures statuses { IsSpelledStatus result }
{
    *needed = 0;
    let Some(mut run) = board.take(alloc) else {
        return CLOSED;
    };
    let events = replace_with(run.as_mut(), (alloc, MOST_EVENTS), RunBlock::events);
    board.keep(run);
    match spelled(alloc, events) {
        Ok(text) => {
            put(text.as_bytes(), out, needed);
            DONE
        }
        Err(status) => status,
    }
}
