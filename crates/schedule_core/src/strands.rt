//! Strands: what a worker did outside of the machine, across calls, detaches and what ends them, done at once.
ghost use Rattle.std.specs.Prelude.{◌≡◌, ◌↔◌, ◌≤◌, IfNone, IfOk, IfSome, IsSome, IsTrue, None, Ok, OnErr, OnOk, OnSome, Some, false, length, true};
ghost use Rattle.std.specs.List.{list_any};
ghost use Rattle.frame_engine.specs.Items.{item_of};
ghost use Rattle.serial_machine.specs.Decoding.{IsCodeOf};
ghost use Rattle.frame_engine.specs.Flat.{cell_in};
ghost use Rattle.schedule_commit.specs.strand.strand_pages.Logs.{filled_log, page_around};
ghost use Rattle.schedule_commit.specs.strand.strand_pages.Tables.{log_of};
ghost use Rattle.schedule_commit.specs.strand.Along.{IsUnderWay};
ghost use Rattle.schedule_commit.specs.strand.Boards.{NeedsBoard};
ghost use Rattle.schedule_commit.specs.strand.Going.{GoesStill, IsGoing};
ghost use Rattle.schedule_commit.specs.strand.Leaving.{is_detach, made_on_top};
ghost use Rattle.schedule_commit.specs.strand.Spans.{next_item, next_place, slot_item};
ghost use Rattle.schedule_core.specs.Strands.{StrandFits, HasRoomFor, HasSettled, IsBegun, IsStrandOf, RunsNothing};
ghost use Rattle.schedule_core.specs.Spots.{KeepsSpots};
ghost use Rattle.schedule_core.specs.Stages.{program_of};
ghost use Rattle.schedule_core.specs.FrameStrands.{TakesSteps};

use crate::machine::Machine;
use code_tables::ProgramCode;
use frame_engine::{Item, Places, most_moves};
use lists::OutOfMemory;
use schedule_commit::{
    BoardFrame, CodePlace, Strand, StrandPause, has_no_child, page_around, publish,
};
use serial_machine::{Decoded, Verified};
use std::alloc::Global;

/// A strand without a base, with room for the phi moves of the module.
///
/// # Errors
///
/// Memory was refused.
pub fn blank_strand(alloc: Global, verified: &Verified) -> Result<Strand, OutOfMemory>
    ensures { IfOk result (HasRoomFor verified.now) }
{
    Strand::new(alloc, most_moves(verified.program()))
}

/// Goes on with the strand to a pause, across calls, detaches and what ends them.
///
/// # Errors
///
/// Memory was refused: the strand shows nothing any more.
pub fn advance_strand(
    strand: &mut Strand,
    verified: &Verified,
    code: &Decoded,
    limit: u64,
) -> Result<StrandPause, OutOfMemory>
    requires code { IsCodeOf verified.now code.now }
    requires moves { HasRoomFor verified.now strand.old }
    requires way { ∥ IsUnderWay verified.now code.now.places strand.old ∥₁ }
    requires room { strand.old.done ≤ limit }
    requires limit { limit ≤ 65536 }
    ensures moves { OnOk result (HasRoomFor verified.now strand.new) }
    ensures base { OnOk result (strand.new.base ≡ strand.old.base) }
    ensures room { OnOk result (strand.new.done ≤ limit) }
    ensures more { OnOk result (strand.old.done ≤ strand.new.done) }
    ensures board { IfOk result (λ pause. pause ≡ StrandPause.Border → NeedsBoard verified.now code.now.places strand.new (next_item verified.now strand.new)) }
    ensures limit { IfOk result (λ pause. (pause ≡ StrandPause.Limit) ↔ (strand.new.done ≡ limit)) }
    ensures going { IfOk result (λ pause. ∥ IsGoing verified.now code.now.places strand.new pause ∥₁) }
{
    strand.go(verified.program(), code.places(), code.tables(), limit)
}

/// What the frame that goes on does next.
pub fn next_item<'p>(strand: &Strand, verified: &'p Verified, code: &Decoded) -> Item<'p>
    requires code { IsCodeOf verified.now code.now }
    requires way { ∥ IsUnderWay verified.now code.now.places strand.now ∥₁ }
    ensures { next_item verified.now strand.now ≡ Some (item_of result) }
{
    strand.next_item(verified.program(), code.places(), code.tables())
}

/// Where that stands.
pub fn next_place(strand: &Strand, verified: &Verified, code: &Decoded) -> CodePlace
    requires code { IsCodeOf verified.now code.now }
    requires way { ∥ IsUnderWay verified.now code.now.places strand.now ∥₁ }
    ensures { next_place verified.now strand.now ≡ Some result }
{
    strand.next_place(verified.program(), code.places(), code.tables())
}

/// How many children the frame that goes on has made.
pub fn made_on_top(strand: &Strand, verified: &Verified, code: &Decoded) -> u64
    requires way { ∥ IsUnderWay verified.now code.now.places strand.now ∥₁ }
    ensures { result ≡ made_on_top strand.now }
{
    strand.made_on_top(verified.program(), code.places())
}

/// Whether a frame below is behind a detach.
pub fn has_ready_below(strand: &Strand, verified: &Verified, code: &Decoded) -> bool
    requires code { IsCodeOf verified.now code.now }
    requires way { ∥ IsUnderWay verified.now code.now.places strand.now ∥₁ }
    ensures { result ≡ list_any (λ saved. is_detach (slot_item verified.now saved.at)) strand.now.span.windows.below.items }
{
    strand.has_ready(verified.program(), code.places(), code.tables())
}

/// The strand's frames are as they can be published.
///
/// # Errors
///
/// Memory was refused: the strand stands as before.
pub fn settle_strand(
    strand: &mut Strand,
    verified: &Verified,
    code: &Decoded,
) -> Result<(), OutOfMemory>
    requires code { IsCodeOf verified.now code.now }
    requires moves { HasRoomFor verified.now strand.old }
    requires way { ∥ IsUnderWay verified.now code.now.places strand.old ∥₁ }
    ensures only { HasSettled strand.old strand.new }
    ensures way { ∥ IsUnderWay verified.now code.now.places strand.new ∥₁ }
    ensures still { GoesStill verified.now code.now.places strand.old strand.new }
    ensures made { OnOk result (IsStrandOf verified.now strand.new) }
{
    strand.settle(verified.program(), code.places(), code.tables())
}

/// The page of the address, whose cell the strand needs, holds these values.
pub fn fill_strand(strand: &mut Strand, verified: &Verified, places: &Places, at: i64, page: &[i64])
    requires few { length page.now ≤ 64 }
    requires going { ∥ IsGoing verified.now places.now strand.old (StrandPause.Need at) ∥₁ }
    ensures only { strand.new ≡ record strand.old { cells = strand.new.cells } }
    ensures filled { log_of strand.new.cells.log ≡ filled_log (log_of strand.old.cells.log) at page.now }
    ensures way { ∥ IsUnderWay verified.now places.now strand.new ∥₁ }
{
    strand.fill(verified.program(), places, &at, page);
}

/// The page of the address, whose cells the strand may need soon, holds these values, where there is room for it; whether that is so.
pub fn fill_strand_ahead(
    strand: &mut Strand,
    verified: &Verified,
    places: &Places,
    at: i64,
    page: &[i64],
) -> bool
    requires few { length page.now ≤ 64 }
    requires way { ∥ IsUnderWay verified.now places.now strand.old ∥₁ }
    ensures only { strand.new ≡ record strand.old { cells = strand.new.cells } }
    ensures filled { result ≡ true → log_of strand.new.cells.log ≡ filled_log (log_of strand.old.cells.log) at page.now }
    ensures unchanged { result ≡ false → strand.new ≡ strand.old }
    ensures way { ∥ IsUnderWay verified.now places.now strand.new ∥₁ }
{
    strand.fill_ahead(verified.program(), places, &at, page)
}

impl Machine<'_> {
    /// Publishes what a strand did as steps of the worker, if the worker runs the base as it was loaded, at its path, without children where it had
    /// none, and each cell that was read holds what was read. The answer is whether that is so; if not, nothing changes. The frames that the
    /// strand made are the machine's from here on: see [`Machine::ready_below`].
    ///
    /// # Errors
    ///
    /// Memory was refused: nothing has changed.
    pub fn publish(&mut self, worker: u8, strand: &Strand) -> Result<bool, OutOfMemory>
        requires made { IsStrandOf (program_of self.old.stage) strand.now }
        ensures exactly { IfOk result (λ done. IsTrue done ↔ StrandFits self.old.stage worker strand.now) }
        ensures does { result ≡ Ok true → TakesSteps self.old.stage self.new.stage worker strand.now.done }
        ensures left { result ≡ Ok false → self.new.stage ≡ self.old.stage }
        ensures refused { OnErr result (self.new.stage ≡ self.old.stage) }
        ensures spots { KeepsSpots self.old.stage.run.cactus self.new.stage.run.cactus }
        ensures names { self.new.stage.memory ≡ self.old.stage.memory }
    {
        let stage = &mut self.stage;
        let program = stage.verified.program();
        publish(&mut stage.run, program, stage.places.get(), worker, strand)
    }

    /// Loads the frame that the worker runs next as the base of the strand. The answer is whether there is such a frame; if not, the strand is as
    /// it was.
    ///
    /// # Errors
    ///
    /// Memory was refused: the strand shows nothing any more.
    pub fn load_strand(
        &self,
        worker: u8,
        strand: &mut Strand,
        code: &Decoded,
    ) -> Result<bool, OutOfMemory>
        requires code { IsCodeOf (program_of self.now.stage) code.now }
        ensures begun { IfOk result (λ there. IsTrue there → IsBegun self.now.stage worker strand.new) }
        ensures moves { OnOk result (strand.new.moves ≡ strand.old.moves) }
        ensures same { result ≡ Ok false → strand.new ≡ strand.old }
        ensures idle { result ≡ Ok false → RunsNothing self.now.stage worker }
    {
        let Some(slot) = self.stage.run.hand(worker) else {
            return Ok(false);
        };
        let Some(node) = self.stage.run.cactus.node(slot) else {
            return Ok(false);
        };
        let childless = has_no_child(&node.frame);
        let program = self.stage.verified.program();
        let part = self.stage.run.free_part(program, worker);
        let own = ProgramCode {
            program,
            places: code.places(),
            tables: code.tables(),
        };
        let base = BoardFrame {
            frame: &node.frame.frame,
            path: node.path.numbers.as_slice(),
            childless,
        };
        strand.load(
            own,
            &base,
            part.start as u64,
            part.cells,
            self.stage.run.cells.cells.len(),
        )?;
        Ok(true)
    }

    /// What the cells of an address's page hold, from the page's first cell on; none where there is no cell at the address.
    pub fn page_at(&self, at: i64) -> Option<&[i64]>
        ensures page { IfSome result (λ page. page.now ≡ page_around self.now.stage.run.cells.cells.items at) }
        ensures few { IfSome result (λ page. length page.now ≤ 64) }
        ensures there { OnSome result (IsSome (cell_in self.now.stage.run.cells.cells.items at)) }
        ensures none { IfNone result (cell_in self.now.stage.run.cells.cells.items at ≡ None) }
    {
        page_around(self.stage.run.cells.cells.as_slice(), at)
    }
}
