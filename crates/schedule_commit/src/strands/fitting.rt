//! Whether a strand fits: base, path, children and each cell that it read are as they were (validation).

ghost use Rattle.std.specs.Prelude.{◌≡◌, ◌↔◌, ℕ, IfNone, IfSome, IsTrue, true};
ghost use Rattle.schedule_commit.specs.strands.Fitting.{FitsStrand, HasNoChild, segment_block};

use crate::{is_same, same_numbers};
use program::Program;
use schedule_workers::{Activation, Block, Run};
use strand::Strand;

/// Whether no child of the frame lives.
pub fn has_no_child(activation: &Activation) -> bool
    ensures { IsTrue result ↔ HasNoChild activation.now }
{
    activation.counts.none_lives()
}

/// Whether the frame has no child where the base of the strand had none.
fn is_as_childless(strand: &Strand, activation: &Activation) -> bool
    ensures { IsTrue result ↔ (strand.now.base.childless ≡ true → HasNoChild activation.now) }
{
    !strand.base.childless || has_no_child(activation)
}

/// The addresses of the allocas of the frames above the base.
fn segment(strand: &Strand) -> Block
    ensures { result ≡ segment_block strand.now.cells }
{
    Block {
        start: strand.cells.start as usize,
        cells: strand.cells.own.len(),
    }
}

/// The slot of the worker's frame, where that is the strand's base as it was loaded, at its path, without children if it had none, what was read
/// is there, and no frame that lives has its allocas among the strand's.
pub fn fitting_base(run: &Run, program: &Program, worker: u8, strand: &Strand) -> Option<usize>
    ensures fits { IfSome result (FitsStrand program.now run.now worker strand.now) }
    ensures only { IfNone result ((slot : ℕ) → FitsStrand program.now run.now worker strand.now slot → ⊥) }
{
    let slot = run.hand(worker)?;
    let node = run.cactus.node(slot)?;
    if same_numbers(node.path.numbers.as_slice(), strand.base.path.as_slice())
        && is_same(&node.frame.frame, &strand.base.frame)
        && is_as_childless(strand, &node.frame)
        && strand.cells.reads_agree(run.cells.cells.as_slice())
        && run.is_free(program, segment(strand))
    {
        Some(slot)
    } else {
        None
    }
}
