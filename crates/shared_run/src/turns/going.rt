//! A worker goes on outside of the board, until it wants something of it (`turn`: the loop without a lock).

use crate::bench::Bench;
use crate::turns::habits::{Habits, Want};
use crate::turns::tasks::{Hunger, Reason};
use crate::worker_strand::{MOST_INSTRUCTIONS, Standing, WorkerStrand};
use lists::OutOfMemory;

/// A strand looks for others' demand after so many instructions at first, then each time it has done twice as many, up to the longest slice. With 16 no second
/// worker comes into a run of 14 instructions (`examples/pair.ll`), which a case of `cases_machine` asks for.
const SHORTEST_SLICE: u64 = 2;

/// The most instructions between two looks for others' demand. Neither 250 (in a port to plain Rust) nor 4,000 (in a build without proofs) gained anything.
const LONGEST_SLICE: u64 = 1_000;

/// A strand with so many frames below its top is one of nested calls, which has much to give: it is put on the board as soon as others wait. No
/// gain was seen of that rule alone, and 8 made no difference in eleven kernels on two and four workers (medians of 25 runs, within 2 of a hundred).
const DEEP: usize = 4;

/// More pauses than the slices of a strand make, which are some 75: so the loop has a bound that nothing comes to.
const MOST_PAUSES: u32 = 1_000;

/// The strand is to be put on the board. Its frames are written for that here, where no lock is held.
fn to_publish<L: Bench>(strand: &mut WorkerStrand<'_, L>, reason: Reason) -> Want {
    if strand.done() == 0 {
        return Want::Publish { reason };
    }
    match strand.settle() {
        Ok(()) => Want::Publish { reason },
        Err(OutOfMemory) => Want::Leave,
    }
}

/// Goes on to where something is wanted of the board: what that is.
fn next_want<L: Bench, H: Hunger>(
    strand: &mut WorkerStrand<'_, L>,
    habits: &mut Habits,
    wanted: &H,
) -> Want {
    for _ in 0..MOST_PAUSES {
        let slice = strand.done().clamp(SHORTEST_SLICE, LONGEST_SLICE);
        let reason = match strand.advance(slice) {
            Standing::Border => Reason::Border,
            Standing::Full => Reason::Full,
            Standing::Spoilt => return Want::Leave,
            Standing::Blank => return Want::Base,
            Standing::Need { at } => return Want::Page { at },
            Standing::Going if wanted.is_over() => return Want::Nothing,
            Standing::Going => {
                let (done, frames) = (strand.done(), strand.frames_below());
                if done == MOST_INSTRUCTIONS || habits.heights.is_low(done, frames) {
                    Reason::Limit
                } else if wanted.is_there()
                    && strand.has_ready_frame()
                    && habits.pace.is_due(done, DEEP <= frames)
                {
                    // Others wait for a task that the strand would leave ready, and it is not too soon.
                    Reason::Asked
                } else {
                    continue;
                }
            }
        };
        return to_publish(strand, reason);
    }
    to_publish(strand, Reason::Limit)
}

/// Goes on outside of the board, as long as nothing is wanted of it and it is not over.
pub fn turn<L: Bench, H: Hunger>(
    strand: &mut WorkerStrand<'_, L>,
    habits: &mut Habits,
    wanted: &H,
) {
    habits.is_new = false;
    if let Want::Nothing = habits.want
        && !wanted.is_over()
    {
        habits.want = next_want(strand, habits, wanted);
    }
}
