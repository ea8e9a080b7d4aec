//! The machine after a whole schedule (`replay`).

ghost use Rattle.std.specs.Prelude.{◌≢◌, Err, IfOk, OnOk};
ghost use Rattle.schedule_core.specs.Admission.{IsAdmitted};
ghost use Rattle.schedule_core.specs.Replaying.{KeepsItsSchedule, Replays};
ghost use Rattle.serial_machine.specs.store.Made.{IsMadeFor};

use crate::events::{apply_all, begin};
use crate::machine::Machine;
use frame::Event;
use lists::OutOfMemory;
use serial_machine::{Memory, RunFault, Verified};
use std::alloc::Global;

/// The machine after a schedule, from memory that was made for this module; an event that is not enabled changes nothing.
///
/// # Errors
///
/// Those of [`Machine::start`]; 803 too where an event is refused memory. No step stops it.
pub fn replay<'v>(
    alloc: Global,
    verified: &'v Verified,
    arguments: &[i64],
    memory: Memory,
    workers: usize,
    events: &[Event],
) -> Result<Machine<'v>, RunFault>
    requires { IsMadeFor verified.now memory }
    ensures replays { IfOk result (λ m. Replays verified.now arguments.now memory workers events.now m.stage) }
    ensures keeps { OnOk result (KeepsItsSchedule verified.now arguments.now memory workers events.now) }
    ensures admitted { IsAdmitted verified.now arguments.now memory workers result }
    ensures not_stopped { result ≢ Err RunFault.Stopped }
{
    let mut stage = begin(alloc, verified, arguments, memory, workers)?;
    match apply_all(&mut stage, events) {
        Err(OutOfMemory) => Err(RunFault::OutOfMemory),
        Ok(()) => Ok(Machine { stage }),
    }
}
