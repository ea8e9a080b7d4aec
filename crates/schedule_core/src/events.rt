//! How a run begins, and does one event or many, over a stage.

ghost use Rattle.std.specs.Prelude.{◌≡◌, ◌≢◌, ◌<◌, [], Err, None, Ok, false, IfOk, OnOk, OnErr};
ghost use Rattle.semantics.specs.Events.{Machine};
ghost use Rattle.serial_machine.specs.store.Requirements.{unmet_in};
ghost use Rattle.schedule_core.specs.Admission.{IsAdmitted};
ghost use Rattle.schedule_workers.specs.Follows.{Follows};
ghost use Rattle.schedule_core.specs.Replaying.{GrowsOnly, Happens, IsMachine, LeavesAsBefore};
ghost use Rattle.schedule_core.specs.Replaying.{Replays, ReplaysMore, ReplaysOneMore, StandsAsWell, event_of};
ghost use Rattle.serial_machine.specs.store.Made.{IsMadeFor};
ghost use Rattle.schedule_core.specs.Stages.{IsState, program_of};

use crate::shared_places::SharedPlaces;
use crate::stage::Stage;
use frame::Event;
use frame_engine::most_moves;
use lists::OutOfMemory;
use schedule_workers::Run;
use serial_machine::{Memory, RunFault, Verified, unmet_requirement};
use std::alloc::Global;

/// The stage before the first event, of arguments that `main` takes.
fn staged<'v>(
    alloc: Global,
    verified: &'v Verified,
    arguments: &[i64],
    memory: Memory,
    workers: usize,
) -> Result<Stage<'v>, OutOfMemory>
    requires made { IsMadeFor verified.now memory }
    requires met { unmet_in verified.now arguments.now ≡ None }
    requires workers { 0 < workers }
    ensures machine { IfOk result IsMachine }
    ensures replays { IfOk result (Replays verified.now arguments.now memory workers []) }
{
    let program = verified.program();
    let places = SharedPlaces::of_program(alloc, program)?;
    let row = memory.row()?;
    let run = Run::start(alloc, program, arguments, row, workers, most_moves(program))?;
    Ok(Stage {
        verified,
        places,
        memory,
        run,
    })
}

/// The stage before the first event.
pub(crate) fn begin<'v>(
    alloc: Global,
    verified: &'v Verified,
    arguments: &[i64],
    memory: Memory,
    workers: usize,
) -> Result<Stage<'v>, RunFault>
    requires { IsMadeFor verified.now memory }
    ensures machine { IfOk result IsMachine }
    ensures replays { IfOk result (Replays verified.now arguments.now memory workers []) }
    ensures admitted { IsAdmitted verified.now arguments.now memory workers result }
    ensures not_stopped { result ≢ Err RunFault.Stopped }
{
    if let Some(requirement) = unmet_requirement(verified.program(), arguments) {
        return Err(RunFault::BadArguments {
            requirement,
            memory,
        });
    }
    if workers == 0 || 64 < workers {
        return Err(RunFault::BadWorkers { memory });
    }
    match staged(alloc, verified, arguments, memory, workers) {
        Ok(stage) => Ok(stage),
        Err(OutOfMemory) => Err(RunFault::OutOfMemory),
    }
}

/// The stage again, in lists of its own.
pub(crate) fn copied<'v>(stage: &Stage<'v>) -> Result<Stage<'v>, OutOfMemory>
    requires { ∥ IsMachine stage.now ∥₁ }
    ensures same { IfOk result (StandsAsWell stage.now) }
    ensures machine { IfOk result (λ other. ∥ IsMachine other ∥₁) }
{
    let run = stage.run.copy()?;
    let places = stage.places.share()?;
    let memory = stage.memory.copy()?;
    Ok(Stage {
        verified: stage.verified,
        places,
        memory,
        run,
    })
}

/// One event. The answer is whether it was enabled; where it was not, nothing changes.
pub(crate) fn apply_to(stage: &mut Stage<'_>, event: &Event) -> Result<bool, OutOfMemory>
    requires { ∥ IsMachine stage.old ∥₁ }
    ensures enabled { IfOk result (Happens stage.old stage.new (event_of event.now)) }
    ensures not_enabled { result ≡ Ok false → stage.new ≡ stage.old }
    ensures refused { OnErr result (LeavesAsBefore stage.old stage.new) }
    ensures only { OnErr result ((m : Machine) → IsState stage.old m → GrowsOnly (program_of stage.old) m event.now) }
    ensures replays { OnOk result (ReplaysOneMore stage.old stage.new event.now) }
    ensures machine { ∥ IsMachine stage.new ∥₁ }
    ensures follows { Follows stage.old.run.cactus stage.new.run.cactus }
    ensures memory { stage.new.memory ≡ stage.old.memory }
{
    let program = stage.verified.program();
    match event {
        Event::Step(worker) => stage.run.step(program, stage.places.get(), *worker),
        Event::Steal(worker, path) => Ok(stage.run.steal(*worker, path)),
    }
}

/// The events, one after another; one that is not enabled changes nothing.
pub(crate) fn apply_all(stage: &mut Stage<'_>, events: &[Event]) -> Result<(), OutOfMemory>
    requires { ∥ IsMachine stage.old ∥₁ }
    ensures replays { OnOk result (ReplaysMore stage.old stage.new events.now) }
    ensures machine { ∥ IsMachine stage.new ∥₁ }
{
    for event in events {
        let _enabled = apply_to(stage, event)?;
    }
    Ok(())
}
