//! A worker meets the board under its lock, and wakes others for the tasks that it offered.

use crate::demand::Demand;
use crate::locking::locked;
use crate::tickets::Ends;
use crate::workers::Worker;
use shared_run::turns::{Met, meet};
use shared_run::{Bench, Shared};
use std::sync::Wait;

/// The worker meets the board, and then wakes others for the tasks that it offered.
pub(crate) fn met<L: Bench, R: Wait>(
    rt: &R,
    shared: &Shared<'_, L>,
    demand: &Demand,
    worker: &mut Worker<'_, L>,
) -> Met {
    let mut ends = Ends {
        demand,
        hands: &mut worker.hands,
        thieves: &mut worker.thieves,
        figures: &mut worker.figures,
    };
    let mut board = locked(rt, shared);
    let (met, offered) = meet(
        &mut board,
        &mut ends,
        &mut worker.seat,
        &mut worker.strand,
        &mut worker.habits,
    );
    drop(board);
    if offered > 0 {
        demand.ring(offered);
    }
    met
}
