//! Frame strands of a run, outside of its board: they are made for its module, and what changes them keeps them strands of it.
ghost use Rattle.std.specs.Prelude.{◌≡◌, IfOk, Some};
ghost use Rattle.schedule_workers.specs.Starts.{ArePlaces};
ghost use Rattle.schedule_core.specs.FrameStrands.{IsMadeOf};
ghost use Rattle.schedule_core.specs.frame_strand.declared.standing.FrameStrandPause.TheVariants.{Blank};

use crate::bench::Bench;
use lists::OutOfMemory;
use schedule_core::{FrameStrand, FrameStrandPause, Places, Verified};
use std::alloc::Global;

/// A blank frame strand of the module, with room for the frames of its runs: none is deeper than the module's depth.
///
/// # Errors
///
/// Memory was refused.
pub fn blank_frame_strand<'p>(
    alloc: Global,
    verified: &'p Verified,
    places: &'p Places,
) -> Result<FrameStrand<'p>, OutOfMemory>
    requires { ArePlaces verified.now places.now }
    ensures made { IfOk result (IsMadeOf verified.now) }
    ensures blank { IfOk result (λ strand. strand.pause ≡ Some Blank) }
{
    FrameStrand::new(alloc, verified.program(), places, verified.depth() as usize)
}

/// The strand is blank from here on.
#[tactic(auto, using(crate::proofs::Made::made_still))]
pub fn clear<L: Bench>(strand: &mut FrameStrand<'_>)
    requires { IsMadeOf L.code strand.old }
    ensures made { IsMadeOf L.code strand.new }
    ensures blank { strand.new.pause ≡ Some Blank }
{
    strand.clear();
}

/// Goes on with the strand to a pause.
#[tactic(auto, using(crate::proofs::Made::made_still))]
pub fn advance<L: Bench>(strand: &mut FrameStrand<'_>) -> FrameStrandPause
    requires { IsMadeOf L.code strand.old }
    ensures made { IsMadeOf L.code strand.new }
    ensures pause { strand.new.pause ≡ Some result }
{
    strand.advance()
}
