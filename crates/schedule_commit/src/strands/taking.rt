//! Publishes a strand as steps of its worker, if it fits (validate, then commit).

ghost use Rattle.std.specs.Prelude.{◌≡◌, ◌↔◌, ℕ, true, false, IfOk, IsTrue, Ok, OnErr, length};
ghost use Rattle.schedule_workers.specs.Follows.{Follows};
ghost use Rattle.schedule_workers.specs.Going.{TextFits};
ghost use Rattle.strand.specs.Along.{IsSettled};
ghost use Rattle.schedule_commit.specs.strands.Absorbing.{DoesStrand, LeavesStallsByStrand, StandsForStrands};
ghost use Rattle.schedule_commit.specs.strands.Fitting.{FitsStrand};

use crate::strands::committing::commit;
use crate::strands::fitting::fitting_base;
use crate::strands::linking::links_of;
use frame_engine::Places;
use lists::OutOfMemory;
use program::Program;
use schedule_workers::Run;
use strand::Strand;

/// Publishes what the strand did as steps of the worker, if the worker runs the base as it was loaded, at its path, and each cell that was read holds
/// what was read. The answer is whether that is so; if not, nothing changes.
///
/// # Errors
///
/// Memory was refused: nothing has changed.
pub fn publish(
    run: &mut Run,
    program: &Program,
    places: &Places,
    worker: u8,
    strand: &Strand,
) -> Result<bool, OutOfMemory>
    requires text { TextFits program.now places.now (length run.old.moves.items) }
    requires way { ∥ IsSettled program.now places.now strand.now ∥₁ }
    requires safe { ∥ StandsForStrands program.now places.now run.old ∥₁ }
    ensures exactly { IfOk result (λ done. IsTrue done ↔ ((slot : ℕ) × FitsStrand program.now run.old worker strand.now slot)) }
    ensures does { result ≡ Ok true → ∥ DoesStrand program.now places.now run.old run.new worker strand.now ∥₁ }
    ensures left { result ≡ Ok false → run.new ≡ run.old }
    ensures stalls { result ≡ Ok true → LeavesStallsByStrand program.now places.now run.old run.new worker strand.now }
    ensures refused { OnErr result (run.new ≡ run.old) }
    ensures follows { Follows run.old.cactus run.new.cactus }
    ensures workers { length run.new.hands.items ≡ length run.old.hands.items }
    ensures moves { run.new.moves ≡ run.old.moves }
{
    let Some(slot) = fitting_base(run, program, worker, strand) else {
        return Ok(false);
    };
    let links = links_of(run.alloc, &mut run.cactus, worker, strand)?;
    let slots = run.cactus.add_chain(slot, links)?;
    commit(run, worker, slot, slots.as_slice(), strand);
    Ok(true)
}
