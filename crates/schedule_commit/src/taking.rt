//! Does a frame strand's steps and its border's, if it fits; undone where memory is refused (commit).

ghost use Rattle.std.specs.Prelude.{◌≡◌, ◌≢◌, ◌↔◌, ◌+◌, ◌<◌, ℕ, suc, false, true, IfOk, IsTrue, Ok, OnErr, OnOk, Some, length, slice_get};
ghost use Rattle.std.specs.Vec.{with_items};
ghost use Rattle.cactus.specs.Frames.{Lives, node_at};
ghost use Rattle.cactus.specs.declared.node.Node.{Node};
ghost use Rattle.frame_engine.specs.Flat.{is_cell};
ghost use Rattle.schedule_workers.specs.declared.activation.Activation.{Activation as Living};
ghost use Rattle.schedule_workers.specs.Follows.{Follows};
ghost use Rattle.schedule_workers.specs.Going.{TextFits};
ghost use Rattle.schedule_workers.specs.Left.{LeavesAsShown};
ghost use Rattle.schedule_workers.specs.Rooms.{IsRoomier};
ghost use Rattle.schedule_workers.specs.declared.run.Run.{Run as ShownRun};
ghost use Rattle.frame_strand.specs.declared.cells.Written.{Written as ShownWritten};
ghost use Rattle.frame_strand.specs.declared.standing.FrameStrandPause.TheVariants.{Blank, Border};
ghost use Rattle.schedule_commit.specs.Absorbing.{DoesSteps, DoesFrameStrand, KeepsHand, LeavesStallsBy, StandsAlone, steps_in};
ghost use Rattle.schedule_commit.specs.Fitting.{FitsRun};
ghost use Rattle.schedule_commit.specs.Putting.{IsPut};
ghost use Rattle.schedule_commit.specs.TakingBack.{WasPut};

use crate::cells::put_writes;
use crate::fitting::fitting_slot;
use crate::taking_back::{numbers_before, take_back};
use frame::Wait;
use frame_engine::{Frame, Place, Places};
use frame_strand::{FrameStrand, FrameStrandPause};
use lists::OutOfMemory;
use program::Program;
use schedule_workers::Run;

/// Puts a place and registers into a frame, which waits for this from here on.
pub(crate) fn write_frame(target: &mut Frame, source: &Frame, waits: Wait)
    requires { length source.now.registers.items ≡ length target.old.registers.items }
    ensures only { target.new ≡ record target.old { place = source.now.place; registers = target.new.registers; waits = waits } }
    ensures registers { target.new.registers.items ≡ source.now.registers.items }
    ensures room { target.new.registers ≡ with_items target.old.registers source.now.registers.items }
{
    target.place = Place {
        block: source.place.block,
        index: source.place.index,
    };
    target
        .registers
        .as_mut_slice()
        .copy_from_slice(source.registers.as_slice());
    target.waits = waits;
}

/// Puts the strand's frame and writes into the run, and counts its instructions.
fn put_frame_strand(run: &mut Run, slot: usize, strand: &FrameStrand)
    requires lives { Lives run.old.cactus slot }
    requires registers { (node : Node Living) → node_at run.old.cactus slot ≡ Some node →
        length strand.now.course.present.registers.items ≡ length node.frame.frame.registers.items }
    requires within { (i : ℕ) (w : ShownWritten) → slice_get strand.now.course.cells.writes i ≡ Some w →
        IsTrue (is_cell run.old.cells.cells.items w.at) }
    requires counted { run.old.instructions + strand.now.course.done < 18446744073709551616 }
    ensures { IsPut run.old run.new slot strand.now }
{
    put_writes(run.cells.cells.as_mut_slice(), strand.writes());
    let Some(activation) = run.cactus.frame_mut(slot) else {
        unreachable!()
    };
    write_frame(&mut activation.frame, strand.present(), Wait::Nothing);
    run.instructions += strand.done();
}

/// Whether the strand stands at the pause.
fn is_at(strand: &FrameStrand, pause: FrameStrandPause) -> bool
    ensures { IsTrue result ↔ (strand.now.pause ≡ Some pause) }
{
    strand.pause() == Some(pause)
}

/// Does the strand's instructions as steps of a worker whose frame it fits.
fn go_on(run: &mut Run, slot: usize, strand: &FrameStrand)
    requires fits { (worker : ℕ) × FitsRun run.old worker strand.now slot }
    requires going { strand.now.pause ≢ Some Blank }
    requires safe { ∥ StandsAlone strand.now.program.now strand.now.places.now run.old ∥₁ }
    ensures left { strand.now.course.done ≡ 0 → run.new ≡ run.old }
    ensures put { strand.now.course.done ≢ 0 → IsPut run.old run.new slot strand.now }
{
    if strand.done() > 0 {
        put_frame_strand(run, slot, strand);
    }
}

/// Takes back what `go_on` did, where the run got more room at most since then.
fn undo(run: &mut Run, slot: usize, strand: &FrameStrand, numbers: &[i64])
    requires put { strand.now.course.done ≢ 0 → (before : ShownRun) × WasPut before run.old slot strand.now numbers.now }
    ensures left { strand.now.course.done ≡ 0 → run.new ≡ run.old }
    ensures back { strand.now.course.done ≢ 0 → (before : ShownRun) → WasPut before run.old slot strand.now numbers.now →
        IsRoomier before run.new }
{
    if strand.done() > 0 {
        take_back(run, slot, strand, numbers);
    }
}

/// Does the strand's instructions and the border's after them as steps of the worker.
///
/// # Errors
///
/// Memory was refused: nothing has changed that is seen of the run.
fn go_over(
    run: &mut Run,
    program: &Program,
    places: &Places,
    worker: u8,
    slot: usize,
    strand: &FrameStrand,
) -> Result<(), OutOfMemory>
    requires text { TextFits program.now places.now (length run.old.moves.items) }
    requires program { strand.now.program.now ≡ program.now }
    requires places { strand.now.places.now ≡ places.now }
    requires fits { FitsRun run.old worker strand.now slot }
    requires border { strand.now.pause ≡ Some Border }
    requires safe { ∥ StandsAlone program.now places.now run.old ∥₁ }
    ensures does { OnOk result ∥ DoesSteps program.now places.now run.old run.new worker (suc strand.now.course.done) ∥₁ }
    ensures stalls { OnOk result (LeavesStallsBy program.now places.now run.old run.new worker (suc strand.now.course.done)) }
    ensures refused { OnErr result (LeavesAsShown program.now places.now run.old run.new) }
    ensures follows { Follows run.old.cactus run.new.cactus }
    ensures workers { length run.new.hands.items ≡ length run.old.hands.items }
    ensures moves { length run.new.moves.items ≡ length run.old.moves.items }
{
    let before = numbers_before(run, strand)?;
    go_on(run, slot, strand);
    match run.border(program, places, worker, slot) {
        Ok(()) => Ok(()),
        Err(refused) => {
            undo(run, slot, strand, before.as_slice());
            Err(refused)
        }
    }
}

/// Does what a frame strand did as steps of the worker, and the border's with them where it stands at one, if the worker runs the loaded
/// frame at its path and each cell that was read holds what was read. The answer is whether that is so; if not, nothing changes.
///
/// # Errors
///
/// Memory was refused: nothing has changed that is seen of the run.
pub fn absorb(
    run: &mut Run,
    program: &Program,
    places: &Places,
    worker: u8,
    strand: &FrameStrand,
) -> Result<bool, OutOfMemory>
    requires text { TextFits program.now places.now (length run.old.moves.items) }
    requires program { strand.now.program.now ≡ program.now }
    requires places { strand.now.places.now ≡ places.now }
    requires safe { ∥ StandsAlone program.now places.now run.old ∥₁ }
    ensures exactly { IfOk result (λ done. IsTrue done
        ↔ ((strand.now.pause ≢ Some Blank) × ((slot : ℕ) × FitsRun run.old worker strand.now slot))) }
    ensures does { result ≡ Ok true → ∥ DoesFrameStrand program.now places.now run.old run.new worker strand.now ∥₁ }
    ensures left { result ≡ Ok false → run.new ≡ run.old }
    ensures hand { result ≡ Ok true → KeepsHand program.now places.now run.old worker strand.now }
    ensures stalls { result ≡ Ok true →
        LeavesStallsBy program.now places.now run.old run.new worker (steps_in strand.now.pause strand.now.course.done) }
    ensures refused { OnErr result (LeavesAsShown program.now places.now run.old run.new) }
    ensures follows { Follows run.old.cactus run.new.cactus }
    ensures workers { length run.new.hands.items ≡ length run.old.hands.items }
    ensures moves { length run.new.moves.items ≡ length run.old.moves.items }
{
    if is_at(strand, FrameStrandPause::Blank) {
        return Ok(false);
    }
    let Some(slot) = fitting_slot(run, worker, strand) else {
        return Ok(false);
    };
    if is_at(strand, FrameStrandPause::Border) {
        go_over(run, program, places, worker, slot, strand)?;
    } else {
        go_on(run, slot, strand);
    }
    Ok(true)
}
