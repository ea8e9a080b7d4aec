//! Writes a strand's base, frames, cells and counts into the run (commit of a transaction).

ghost use Rattle.std.specs.Prelude.{◌≡◌, ◌≢◌, ◌+◌, ◌^◌, ◌<◌, ◌≤◌, ℕ, ℤ, IsSome, IsTrue, None, Some, length, slice_get, vec_len};
ghost use Rattle.linear.specs.declared.form.RegisterId.{RegisterId};
ghost use Rattle.program.specs.declared.identifier.BlockId.{BlockId};
ghost use Rattle.frame.specs.declared.frame.Role.TheVariants as Role;
ghost use Rattle.cactus.specs.Frames.{frame_at};
ghost use Rattle.schedule_workers.specs.declared.activation.Activation.{Activation as Living};
ghost use Rattle.schedule_workers.specs.Scheduling.{counted_in};
ghost use Rattle.frame_engine.specs.declared.activation.Frame.{Frame as ShownFrame};
ghost use Rattle.frame_engine.specs.Flat.{is_cell};
ghost use Rattle.strand.specs.strand_pages.Tables.{log_of};
ghost use Rattle.schedule_commit.specs.strands.Committing.{IsBase, IsCommitted, MayCount, last_of, linked_up, waiting_at};
ghost use Rattle.schedule_commit.specs.strands.Linking.{frames_of};

use crate::strands::linking::{above, count_above, frame_of};
use cactus::Cactus;
use frame::Wait;
use frame_engine::{Frame, Place};
use schedule_workers::{Activation, Run};
use strand::Strand;

/// Puts place, registers, number of children and wait of a frame into another.
fn write_frame(target: &mut Frame, source: &Frame)
    requires { length source.now.registers.items ≡ length target.old.registers.items }
    ensures only { target.new ≡ record target.old {
      place = source.now.place;
      registers = target.new.registers;
      made = source.now.made;
      waits = source.now.waits;
    } }
    ensures registers { target.new.registers.items ≡ source.now.registers.items }
{
    target.place = Place {
        block: source.place.block,
        index: source.place.index,
    };
    target
        .registers
        .as_mut_slice()
        .copy_from_slice(source.registers.as_slice());
    target.made = source.made;
    target.waits = source.waits;
}

/// Puts what the base became into its frame. No worker runs it where a frame stands on it.
fn write_base(base: &mut Activation, strand: &Strand)
    requires registers { (f : ShownFrame) → slice_get (frames_of strand.now) 0 ≡ Some f → length f.registers.items ≡ length base.old.frame.registers.items }
    requires counts { MayCount strand.now base.old }
    ensures { IsBase strand.now base.old base.new }
{
    write_frame(&mut base.frame, frame_of(strand, 0));
    if let Some(above) = above(strand, 0) {
        base.runner = None;
        count_above(base, above);
    }
}

/// The frame in the slot, if it waits for a call, waits for the one in the child's.
fn wait_for(frames: &mut Cactus<Activation>, slot: usize, child: usize)
    ensures { frames.new ≡ waiting_at frames.old slot child }
{
    if let Some(activation) = frames.frame_mut(slot)
        && let Wait::Call { .. } = activation.frame.waits
    {
        activation.callee = Some(child);
    }
}

/// Each frame waits for the one above it, if that is a call's; the answer is the uppermost's slot.
fn link_up(frames: &mut Cactus<Activation>, slot: usize, slots: &[usize]) -> usize
    ensures linked { frames.new ≡ linked_up frames.old slot slots.now }
    ensures top { result ≡ last_of slot slots.now }
{
    let mut top = slot;
    for child in slots {
        wait_for(frames, top, *child);
        top = *child;
    }
    top
}

/// Puts what the strand did into the run, whose cactus has the strand's frames above the base; it takes no memory.
pub(crate) fn commit(run: &mut Run, worker: u8, slot: usize, slots: &[usize], strand: &Strand)
    requires lives { IsSome (frame_at run.old.cactus slot) }
    requires worker { worker < vec_len run.old.hands }
    requires begins { strand.now.cells.start ≤ strand.now.end }
    requires own { strand.now.end ≤ strand.now.cells.start + length strand.now.cells.own.items }
    requires row { strand.now.end ≤ length run.old.cells.cells.items }
    requires within { (a : ℤ) → (log_of strand.now.cells.log).writes a ≢ None → IsTrue (is_cell run.old.cells.cells.items a) }
    requires registers { (a : Living) → frame_at run.old.cactus slot ≡ Some a → (f : ShownFrame) → slice_get (frames_of strand.now) 0 ≡ Some f →
        length f.registers.items ≡ length a.frame.registers.items }
    requires counts { (a : Living) → frame_at run.old.cactus slot ≡ Some a → MayCount strand.now a }
    requires counted { run.old.instructions + strand.now.done < 2 ^ 64 }
    ensures { IsCommitted run.old run.new worker slot strand.now slots.now }
{
    strand
        .cells
        .write_into(strand.end, run.cells.cells.as_mut_slice());
    let Some(base) = run.cactus.frame_mut(slot) else {
        unreachable!()
    };
    write_base(base, strand);
    let top = link_up(&mut run.cactus, slot, slots);
    run.set_hand(worker, Some(top));
    run.instructions += strand.done;
    run.peak = run.peak.max(strand.deepest as u64);
}
