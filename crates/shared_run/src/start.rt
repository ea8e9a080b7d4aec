//! Where a run begins: its module, arguments, memory and workers; and whether these are taken.

ghost use Rattle.std.specs.Prelude.{◌≡◌, ◌≢◌, ◌↔◌, Err, IfOk, IsTrue};
ghost use Rattle.schedule_core.specs.Admission.{IsAdmitted};
ghost use Rattle.shared_run.specs.Story.{origin};

use lists::OutOfMemory;
use schedule_core::{Memory, RunFault, Verified, unmet_requirement};
use std::alloc::Global;
use std::marker::Model;

/// Where a run begins: its module, the arguments of `main`, its memory and the number of its workers.
#[derive(Drop)]
pub struct Start<'a> {
    verified: &'a Verified,
    arguments: Vec<i64>,
    memory: Memory,
    workers: usize,
}

impl<'a> Model for Start<'a> {
    ghost use Rattle.shared_run.specs.Story.{Origin};

    ghost Value = { Origin };

    ghost view = { λ s. record { program = s.verified.now; arguments = s.arguments.items; memory = s.memory; workers = s.workers } };
}

impl<'a> Start<'a> {
    /// The start of a run, with copies of the arguments and the memory.
    pub fn new(
        alloc: Global,
        verified: &'a Verified,
        arguments: &[i64],
        memory: &Memory,
        workers: usize,
    ) -> Result<Start<'a>, OutOfMemory>
        ensures { IfOk result (λ s. s ≡ origin verified.now arguments.now memory.now workers) }
    {
        Ok(Start {
            verified,
            arguments: Vec::from_slice(alloc, arguments)?,
            memory: memory.copy()?,
            workers,
        })
    }

    /// Whether it has these arguments, this memory and so many workers.
    pub(crate) fn has(&self, arguments: &[i64], memory: &Memory, workers: usize) -> bool
        ensures { IsTrue result ↔ (origin self.now.program arguments.now memory.now workers ≡ self.now) }
    {
        if self.workers != workers {
            return false;
        }
        if same_numbers(self.arguments.as_slice(), arguments) {
            self.memory.same(memory)
        } else {
            false
        }
    }
}

fn same_numbers(one: &[i64], other: &[i64]) -> bool
    ensures { IsTrue result ↔ (one.now ≡ other.now) }
{
    one == other
}

/// Gives the memory back where a run with these arguments and so many workers can begin. It takes no memory.
///
/// # Errors
///
/// 801 where the arguments are not those of `main`, then 802 where there are not from 1 to 64 workers; both hand the memory back.
pub(crate) fn admitted(
    verified: &Verified,
    arguments: &[i64],
    memory: Memory,
    workers: usize,
) -> Result<Memory, RunFault>
    ensures same { IfOk result (λ m. m ≡ memory) }
    ensures admitted { IsAdmitted verified.now arguments.now memory workers result }
    ensures not_stopped { result ≢ Err RunFault.Stopped }
{
    if let Some(requirement) = unmet_requirement(verified.program(), arguments) {
        return Err(RunFault::BadArguments {
            requirement,
            memory,
        });
    }
    if workers == 0 || 64 < workers {
        return Err(RunFault::BadWorkers { memory });
    }
    Ok(memory)
}
