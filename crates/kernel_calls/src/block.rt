//! What a host's handles on a run stand for: a run with its module, and a worker with its own hold on the module.

ghost use Rattle.std.specs.Prelude.{◌≡◌, ◌≢◌, ◌+◌, ◌-◌, ◌^◌, ◌<◌, Err, IfErr, IfNone, IfOk, IfSome, None, OnErr, length, min};
ghost use Rattle.kernel_calls.specs.hosted.Hosted.{IsProgress, IsTold, WorksFor};
ghost use Rattle.kernel_calls.specs.declared.hosted.met.Met.TheVariants as told;
ghost use Rattle.schedule_core.specs.Admission.{IsAdmitted};
ghost use Rattle.shared_run.specs.Answer.{IsSerialAnswer, LeadTo};
ghost use Rattle.shared_run.specs.Story.{origin};
ghost use Rattle.store.specs.Made.{IsMadeFor};
ghost use Rattle.kernel_calls.specs.Boards.{IsNew};
ghost use Rattle.kernel_calls.specs.Runs.{machine_of};

use crate::hosted::{HostedRun, HostedWorker, Met, Progress, Stop};
use crate::requests::BoardRequest;
use crate::shared::Shared;
use lists::OutOfMemory;
use program::Program;
use shared_run::Event;
use std::alloc::Global;
use std::marker::Model;
use store::{Finished, Memory, RunFault};

/// A run with its module. Contracts see where it began, its events and its fuel.
#[derive(Drop)]
pub struct RunBlock {
    module: Shared,
    run: HostedRun,
}

impl Model for RunBlock {
    ghost use Rattle.kernel_calls.specs.hosted.Hosted.{RunsFrom, start_of};
    ghost use Rattle.kernel_calls.specs.Runs.{Run, run_of};

    ghost Value = { Run };

    ghost view = { λ b. run_of b.module b.run };

    ghost invariant = { λ b. RunsFrom (start_of b.module b.run) b.run };
}

/// A worker with its own hold on the module. Contracts see the module's program.
#[derive(Drop)]
pub struct WorkerBlock {
    module: Shared,
    worker: HostedWorker,
}

impl Model for WorkerBlock {
    ghost use Rattle.kernel_calls.specs.hosted.Hosted.{WorksFor};
    ghost use Rattle.program.specs.declared.function.Program.{Program};

    ghost Value = { Program };

    ghost view = { λ w. w.module };

    ghost invariant = { λ w. WorksFor w.module w.worker };
}

impl RunBlock {
    /// A run before its first event.
    pub fn begin(
        alloc: Global,
        kernel: Shared,
        memory: Memory,
        request: &BoardRequest<'_>,
        stop: Stop,
    ) -> Result<RunBlock, RunFault>
        requires made { IsMadeFor kernel memory }
        ensures begins { IfOk result (IsNew (origin kernel request.now.arguments.now memory request.now.workers) request.now.fuel) }
        ensures admitted { IsAdmitted kernel request.now.arguments.now memory request.now.workers result }
        ensures not_stopped { result ≢ Err RunFault.Stopped }
    {
        let run = HostedRun::begin(alloc, kernel.verified(), memory, request, stop)?;
        Ok(RunBlock {
            module: kernel,
            run,
        })
    }

    /// The module.
    pub fn program(&self) -> &Program
        ensures { result.now ≡ self.now.start.program }
    {
        self.module.verified().program()
    }

    /// A worker of this number.
    pub fn worker(&self, alloc: Global, number: u8) -> Result<WorkerBlock, OutOfMemory>
        ensures { IfOk result (λ w. w ≡ self.now.start.program) }
    {
        let Some(module) = self.module.another() else {
            return Err(OutOfMemory);
        };
        let worker = self.run.worker(alloc, module.verified(), number)?;
        Ok(WorkerBlock { module, worker })
    }

    /// Whether the worker has the very module of this run.
    pub fn has_module_of(&self, worker: &WorkerBlock) -> bool {
        self.module.module().is_same(worker.module.module())
    }

    /// A worker of the module meets the board.
    pub fn meet(self, alloc: Global, worker: WorkerBlock) -> (RunBlock, WorkerBlock, (Met, usize))
        requires { worker ≡ self.start.program }
        ensures start { result.0.start ≡ self.start }
        ensures fuel { result.0.fuel ≡ self.fuel }
        ensures told { IsTold (machine_of result.0) self.fuel result.2.0 }
        ensures stopped { result.2.0 ≡ told.Stopped → result.0 ≡ self }
        ensures worker { result.1 ≡ worker }
    {
        let RunBlock { module, run } = self;
        let (own, worker) = worker.parts();
        let (run, worker, met) = run.meet(alloc, module.verified(), module.code(), worker);
        (
            RunBlock { module, run },
            WorkerBlock {
                module: own,
                worker,
            },
            met,
        )
    }

    /// Grants more fuel, at most 2^64 - 1 in all.
    pub fn grant(&mut self, more: u64)
        ensures { self.new ≡ record self.old { fuel = min (self.old.fuel + more) (2 ^ 64 - 1) } }
    {
        self.run.fuel = self.run.fuel.saturating_add(more);
    }

    /// How far the run has come.
    pub fn look(self, alloc: Global) -> (RunBlock, Progress)
        ensures same { result.0 ≡ self }
        ensures progress { IsProgress (machine_of result.0) result.1 }
    {
        let RunBlock { module, run } = self;
        let (run, progress) = run.look(alloc, module.verified());
        (RunBlock { module, run }, progress)
    }

    /// The events one by one, unless there are more than so many.
    pub fn events(self, with: (Global, u64)) -> (RunBlock, Result<Option<Vec<Event>>, OutOfMemory>)
        ensures same { result.0 ≡ self }
        ensures events { IfOk result.1 (λ found. IfSome found (λ events. events.items ≡ self.events)) }
        ensures long { IfOk result.1 (λ found. IfNone found (with.1 < length self.events)) }
    {
        let RunBlock { module, run } = self;
        let (alloc, most) = with;
        let (run, events) = run.events(alloc, module.verified(), most);
        (RunBlock { module, run }, events)
    }

    /// The answer of a run that has ended; else, where it has not, the run again.
    pub fn finish(self, alloc: Global) -> Result<Finished, RunBlock>
        ensures answer { IfOk result (IsSerialAnswer self.start) }
        ensures replays { IfOk result (LeadTo self.start self.events) }
        ensures same { IfErr result (λ run. run ≡ self) }
        ensures refused { OnErr result ((machine_of self).core.result ≡ None) }
    {
        let RunBlock { module, run } = self;
        match run.finish(alloc, module.verified()) {
            Ok(finished) => Ok(finished),
            Err(run) => Err(RunBlock { module, run }),
        }
    }
}

impl WorkerBlock {
    /// The module, and the worker apart.
    fn parts(self) -> (Shared, HostedWorker)
        ensures module { result.0 ≡ self }
        ensures works { WorksFor self result.1 }
    {
        let WorkerBlock { module, worker } = self;
        (module, worker)
    }

    /// Whether the run's stop is set.
    pub fn is_stopped(&self) -> bool {
        self.worker.ears.stop.is_set()
    }

    /// Goes on outside of the board.
    pub fn turn(self) -> WorkerBlock
        ensures { result ≡ self }
    {
        let WorkerBlock { module, worker } = self;
        let worker = worker.turn(module.verified(), module.code());
        WorkerBlock { module, worker }
    }
}
