//! The calls that a worker makes at a board in a case: strands, frame strands, steps and claims.
ghost use Rattle.std.specs.Prelude.{◌≡◌};
ghost use Rattle.shared_run.specs.serial_machine.Decoding.{IsCodeOf};
ghost use Rattle.shared_run.specs.schedule_core.FrameStrands.{IsMadeOf};

use lists::OutOfMemory;
use shared_run::{
    Bench, Board, Claimed, Committed, Decoded, FrameStrand, Loaded, Published, Seat, Standing,
    Stepped, Ticket, Verified, WorkerStrand, advance, blank_frame_strand, clear,
};
use std::alloc::Global;

/// What a worker of the run that has this ledger does outside of the board.
#[derive(Drop)]
pub struct Player<'p, L: Bench> {
    frame_strand: FrameStrand<'p>,
    strand: WorkerStrand<'p, L>,
    ghost made: { IsMadeOf L.code frame_strand },
}

/// So many players with blank strands of both kinds.
pub fn players_of<'p, L: Bench>(
    alloc: Global,
    verified: &'p Verified,
    code: &'p Decoded,
    count: usize,
) -> Result<Vec<Player<'p, L>>, OutOfMemory>
    requires code { verified.now ≡ L.code }
    requires decoded { IsCodeOf verified.now code.now }
{
    let mut players = Vec::new(alloc);
    for _player in 0..count {
        players.push(Player {
            frame_strand: blank_frame_strand(alloc, verified, code.places())?,
            strand: WorkerStrand::new(alloc, verified, code)?,
        })?;
    }
    Ok(players)
}

/// What is told of a call: its name where it was refused memory.
fn told(is_refused: bool, name: &'static str) -> &'static str {
    if is_refused { name } else { "" }
}

/// Keeps a ticket that was got. One for which there is no memory is lost, and its task is still found at the board.
fn keep(tickets: &mut Vec<Ticket>, ready: Option<Ticket>) -> &'static str {
    if let Some(ticket) = ready {
        let _ = tickets.push(ticket);
    }
    ""
}

/// Claims the task of the ticket that was got last.
fn claim<L: Bench>(board: &mut Board<'_, L>, seat: &mut Seat<L>, tickets: &[Ticket]) -> Claimed {
    match tickets.last() {
        Some(ticket) => board.claim(seat, *ticket),
        None => Claimed::Gone,
    }
}

impl<L: Bench> Player<'_, L> {
    fn fetch(&mut self, board: &Board<'_, L>, seat: &Seat<L>) {
        let _fetched = board.fetch(seat, &mut self.frame_strand);
    }

    fn advance(&mut self) {
        let _pause = advance::<L>(&mut self.frame_strand);
    }

    fn clear(&mut self) {
        clear::<L>(&mut self.frame_strand);
    }

    /// Fetches the page of this address; whether it is not there though the strand can go on, the board has it, and the strand does not.
    fn ahead(&mut self, board: &Board<'_, L>, at: i64) -> bool {
        let is_due = self.strand.standing() == Standing::Going
            && !self.strand.has_page(at)
            && board.machine().cell_at(at).is_some();
        !board.fetch_ahead(&mut self.strand, at) && is_due
    }

    /// Puts the strand on the board, and takes the tickets of the tasks that are ready then.
    fn publish(
        &mut self,
        board: &mut Board<'_, L>,
        seat: &mut Seat<L>,
        tickets: &mut Vec<Ticket>,
    ) -> bool {
        match board.publish(seat, &mut self.strand) {
            Published::Done => {
                let levels = self.strand.frames_below();
                board.ready_tickets(&*seat, levels, tickets).is_err()
            }
            Published::Stranger => false,
            Published::OutOfMemory => true,
        }
    }

    /// Makes the call of this number, some of which are two. The answer is its name where it was refused memory. `count` says how far the strand goes on, or
    /// which page it fetches.
    pub fn call(
        &mut self,
        board: &mut Board<'_, L>,
        seat: &mut Seat<L>,
        tickets: &mut Vec<Ticket>,
        number: u64,
        count: u64,
    ) -> &'static str {
        match number {
            0 => match board.step(seat) {
                Stepped::Done { ready, .. } => keep(tickets, ready),
                Stepped::Idle => "",
                Stepped::OutOfMemory => "Board::step",
            },
            1 => match board.commit(seat, &self.frame_strand) {
                Committed::After { ready, .. } => keep(tickets, ready),
                Committed::Stranger => "",
                Committed::OutOfMemory => "Board::commit",
            },
            2 => match claim(board, seat, tickets.as_slice()) {
                Claimed::OutOfMemory => "Board::claim",
                Claimed::Taken | Claimed::Gone => "",
            },
            3 => match board.claim_first(seat) {
                Claimed::OutOfMemory => "Board::claim_first",
                Claimed::Taken | Claimed::Gone => "",
            },
            4 => {
                self.clear();
                ""
            }
            5 | 6 => {
                self.fetch(&*board, &*seat);
                ""
            }
            7 => {
                self.advance();
                ""
            }
            8 => match board.fetch_base(&*seat, &mut self.strand) {
                Loaded::OutOfMemory => "Board::fetch_base",
                Loaded::Frame | Loaded::Idle => "",
            },
            9 | 10 => told(
                self.strand.standing() == Standing::Going
                    && self.strand.advance(count) == Standing::Spoilt,
                "PrivateStack::advance",
            ),
            11 | 12 => {
                let _fetched = board.fetch_need(&mut self.strand);
                ""
            }
            13 => told(
                self.ahead(&*board, (count % 64) as i64),
                "Board::fetch_ahead",
            ),
            _ => told(self.publish(board, seat, tickets), "Board::publish"),
        }
    }
}
