//! What is seen of a worker's strand: the frame on top, and how many stand below.
ghost use Rattle.std.specs.Prelude.{◌≡◌, IfNone, IfSome};
ghost use Rattle.shared_run.specs.Strands.{IsTop, IsUp};

use crate::bench::Bench;
use crate::worker_strand::WorkerStrand;
use schedule_core::{CodePlace, made_on_top, next_place};

/// The frame that goes on: where it stands, and how many children it has made.
#[derive(Clone, Copy)]
pub struct Top {
    pub at: CodePlace,
    pub made: u64,
}

impl<L: Bench> WorkerStrand<'_, L> {
    /// The frame that goes on, where the strand holds one.
    #[tactic(auto, using(crate::proofs::Strands::under_way, crate::proofs::Settling::is_top))]
    pub fn top(&self) -> Option<Top>
        ensures there { IfSome result (λ top. IsUp self.now.standing × IsTop L.code self.now.strand top) }
        ensures none { IfNone result (¬ IsUp self.now.standing) }
    {
        if self.standing.is_up() {
            Some(Top {
                at: next_place(&self.strand, self.verified, self.code),
                made: made_on_top(&self.strand, self.verified, self.code),
            })
        } else {
            None
        }
    }
}
