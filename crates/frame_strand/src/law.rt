//! The law that plain steps of a frame take its strand on as the definitions say.

ghost use Rattle.frame_strand.specs.Advancing.{AccessesAreFrameStrands};

/// What plain steps of a strand's frame do to its cells takes the strand on as the definitions say: each step is one of a strand that does
/// not pause, and its cells show the footprint of the strand that it leads to.
pub fn accesses_are_frame_strands()
    ensures { AccessesAreFrameStrands }
{}
