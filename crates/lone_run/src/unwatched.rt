//! A run of one worker that nobody watches, which is done as the serial run.

ghost use Rattle.std.specs.Prelude.{◌≡◌, ◌≢◌, Err, IfErr, IfOk, None, OnOk};
ghost use Rattle.store.specs.Requirements.{unmet_in};
ghost use Rattle.store.specs.Named.{HasGlobalCells};
ghost use Rattle.serial_machine.specs.SerialPromise.{EndsWithinBudget};
ghost use Rattle.lone_run.specs.UnderWay.{IsRefusal};

use serial_machine::serial_run;
use std::alloc::Global;
use store::{Finished, Memory, RunFault, Verified};

/// The run of one worker alone where nobody sees its strands, which then need not be told apart: it is the serial run.
///
/// # Errors
///
/// 801 where the arguments are not those of `main`; the memory is handed back. 803 where memory is refused.
#[tactic(auto, using(crate::proofs::Answering::ended, crate::proofs::Answering::met, crate::proofs::Answering::refusal))]
pub fn run_unwatched(
    alloc: Global,
    verified: &Verified,
    arguments: &[i64],
    memory: Memory,
) -> Result<Finished, RunFault>
    requires cells { HasGlobalCells verified.now memory }
    ensures ends { IfOk result (EndsWithinBudget verified.now arguments.now memory) }
    ensures met { OnOk result (unmet_in verified.now arguments.now ≡ None) }
    ensures refused { IfErr result (IsRefusal verified.now arguments.now memory) }
    ensures not_stopped { result ≢ Err RunFault.Stopped }
{
    serial_run(alloc, verified, arguments, memory)
}
