//! Living frames by their paths, one by one, and what cells hold by their addresses.

ghost use Rattle.std.specs.Prelude.{◌≡◌, ◌++◌, ◌∷◌, [], ℤ, IfOk, IfSome, IfNone, None, OnOk, Some, slice_get};
ghost use Rattle.frame_engine.specs.Activation.{allocas_of};
ghost use Rattle.frame_engine.specs.Flat.{cell_in};
ghost use Rattle.semantics.specs.Events as running;
ghost use Rattle.schedule_core.specs.FrameViews.{AreLiving, IsAddressIn, IsFrameAt, IsHeldAt, IsHeldBy};
ghost use Rattle.schedule_core.specs.Stages.{IsState};
ghost use Rattle.schedule_core.specs.Viewed.{place_in};

use crate::machine::Machine;
use frame::Path;
use frame_engine::{Frame, Places, sum};
use lists::OutOfMemory;
use std::alloc::Global;

/// A living frame, over words: a register without a value holds any.
#[derive(Clone, Copy)]
pub struct FrameView<'a> {
    pub path: &'a Path,
    pub frame: &'a Frame,
}

/// What stands in the row at the address, an index; none where there is no such cell.
fn word_in(row: &[i64], address: i64) -> Option<i64>
    ensures { (z : ℤ) → cell_in row.now address ≡ Some z → result ≡ Some z }
{
    match usize::try_from(address) {
        Ok(index) => row.get(index).copied(),
        Err(_) => None,
    }
}

/// Adds a copy of the path.
fn push_path(alloc: Global, paths: &mut Vec<Path>, path: &Path) -> Result<(), OutOfMemory>
    ensures { OnOk result (paths.new.items ≡ paths.old.items ++ path.now ∷ []) }
{
    let copy = path.copy(alloc)?;
    paths.push(copy)?;
    Ok(())
}

/// Where an alloca of the frame's function begins behind its home; none where the function has no such alloca.
fn start_of(places: &Places, function: usize, alloca: usize) -> Option<i64>
    ensures { result ≡ slice_get (allocas_of places.now function) alloca }
{
    let starts = places.allocas.as_slice().get(function)?;
    starts.as_slice().get(alloca).copied()
}

/// The address of a cell of the frame's alloca; none where its function has no such alloca.
fn address_in(places: &Places, frame: &Frame, alloca: usize, index: u64) -> Option<i64>
    ensures address { IfSome result (IsAddressIn places.now frame.now alloca index) }
    ensures none { IfNone result (slice_get (allocas_of places.now frame.now.function.0) alloca ≡ None) }
{
    let start = start_of(places, frame.function.0, alloca)?;
    let first = sum(frame.home, start);
    Some(sum(first, index.cast_signed()))
}

impl Machine<'_> {
    /// The frame of the path; none where no such frame lives.
    pub fn frame(&self, path: &Path) -> Option<FrameView<'_>>
        ensures shown { (m : running.Machine) → IsState self.now.stage m → IfSome result (IsFrameAt self.now.stage m path.now) }
        ensures absent { (m : running.Machine) → IsState self.now.stage m → IfNone result (m.core.frames (place_in path.now) ≡ None) }
    {
        let (slot, _generation) = self.stage.run.cactus.spot(path)?;
        let node = self.stage.run.cactus.node(slot)?;
        Some(FrameView {
            path: &node.path,
            frame: &node.frame.frame,
        })
    }

    /// What stands at an address of a word; none where no cell has it. A cell without a value may hold any.
    pub fn word_at(&self, address: i64) -> Option<i64>
        ensures { (m : running.Machine) → IsState self.now.stage m → IsHeldAt self.now.stage m address result }
    {
        word_in(self.stage.run.cells.cells.as_slice(), address)
    }

    /// What a cell of an alloca holds, of the frame of this path; none where no such frame lives, or its function has no such alloca. A cell without a
    /// value may hold any, and an index behind the last cell gives what stands there.
    pub fn alloca_cell(&self, path: &Path, alloca: usize, index: u64) -> Option<i64>
        ensures { (m : running.Machine) → IsState self.now.stage m → IsHeldBy self.now.stage m path.now alloca index result }
    {
        let view = self.frame(path)?;
        let address = address_in(self.places(), view.frame, alloca, index)?;
        self.word_at(address)
    }

    /// The paths of the living frames, in no order that tells.
    ///
    /// # Errors
    ///
    /// Memory was refused.
    pub fn paths(&self, alloc: Global) -> Result<Vec<Path>, OutOfMemory>
        ensures { IfOk result (λ paths. (m : running.Machine) → IsState self.now.stage m → AreLiving m paths.items) }
    {
        let mut paths = Vec::new(alloc);
        for (_slot, node) in self.stage.run.cactus.iter() {
            push_path(alloc, &mut paths, &node.path)?;
        }
        Ok(paths)
    }
}
