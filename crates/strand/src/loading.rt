//! A strand begins with a copy of a frame of the board.

ghost use Rattle.std.specs.Prelude.{◌≡◌, [], IfOk, OnOk, length, max};
ghost use Rattle.frame_engine.specs.Activation.{FrameFits};
ghost use Rattle.code_tables.specs.Coded.{AreTables};
ghost use Rattle.strand.specs.frame_strand.Standing.{IsCopy};
ghost use Rattle.strand_pages.specs.Logs.{empty_log, pages_of};
ghost use Rattle.strand_pages.specs.Tables.{log_of};
ghost use Rattle.strand.specs.Along.{IsUnderWay, MayBegin};
ghost use Rattle.strand.specs.Loading.{HasText, IsPlaceOf};
ghost use Rattle.strand.specs.OwnCells.{segment_of};

use crate::cells::StrandCells;
use crate::span::Span;
use crate::strand::{Base, Strand, have_words};
use crate::stretch::steps_at;
use code_tables::ProgramCode;
use frame_engine::{Frame, blank};
use lists::OutOfMemory;
use std::alloc::Global;
use strand_pages::{PageLog, copy_frame};
use window_runs::{Position, slot_of};

/// A frame of the board that a strand is to begin with.
#[derive(Clone, Copy)]
pub struct BoardFrame<'a> {
    pub frame: &'a Frame,
    /// Its path, the root's number first.
    pub path: &'a [u64],
    /// Whether no child lives that a sync of it waits for.
    pub childless: bool,
}

/// Room for so many phi moves.
fn spare_words(alloc: Global, count: usize) -> Result<Vec<i64>, OutOfMemory>
    ensures { IfOk result (λ words. length words.items ≡ count) }
{
    let mut words = Vec::with_capacity(alloc, count)?;
    words.resize(count, 0)?;
    Ok(words)
}

/// Makes the frame a copy of the other, with room for it.
fn become_copy(target: &mut Frame, source: &Frame) -> Result<(), OutOfMemory>
    ensures { OnOk result (IsCopy source.now target.new) }
{
    have_words(&mut target.registers, source.registers.len())?;
    copy_frame(target, source);
    Ok(())
}

/// Where a frame stands whose window is the first.
fn place_of(code: ProgramCode<'_>, frame: &Frame) -> Position
    requires text { HasText code.program.now code.places.now }
    requires tables { AreTables code.program.now code.places.now code.tables.now }
    requires stands { FrameFits code.program.now frame.now }
    ensures { IsPlaceOf code.entry.program.now frame.now result }
{
    let pc = slot_of(code.tables, frame.function, frame.place);
    Position {
        pc,
        end: frame.registers.len(),
        steps: steps_at(code.tables, pc),
    }
}

impl Strand {
    /// A strand without a base, with room for so many phi moves.
    pub fn new(alloc: Global, moves: usize) -> Result<Strand, OutOfMemory>
        ensures { IfOk result (λ x. length x.moves.items ≡ moves) }
    {
        let cells = StrandCells {
            start: 0,
            own: Vec::new(alloc),
            log: PageLog::new(alloc)?,
        };
        let moves = spare_words(alloc, moves)?;
        Ok(Strand {
            alloc,
            base: Base {
                path: Vec::new(alloc),
                frame: blank(alloc),
                childless: false,
            },
            top: Box::new(alloc, blank(alloc))?,
            below: Vec::new(alloc),
            spare: Vec::new(alloc),
            done: 0,
            deepest: 0,
            cells,
            end: 0,
            moves,
            span: Span::none(alloc),
        })
    }

    /// Begins with a copy of the board's frame. The allocas of its own frames get `room` addresses from `start` on. `cells` is how many cells the
    /// board has.
    ///
    /// # Errors
    ///
    /// Memory was refused: the strand shows nothing any more.
    pub fn load(
        &mut self,
        code: ProgramCode<'_>,
        base: &BoardFrame<'_>,
        start: u64,
        room: usize,
        cells: usize,
    ) -> Result<(), OutOfMemory>
        requires text { HasText code.program.now code.places.now }
        requires tables { AreTables code.program.now code.places.now code.tables.now }
        requires stands { FrameFits code.program.now base.now.frame.now }
        ensures path { OnOk result (self.new.base.path.items ≡ base.now.path.now) }
        ensures loaded { OnOk result (IsCopy base.now.frame.now self.new.base.frame) }
        ensures childless { OnOk result (self.new.base.childless ≡ base.now.childless) }
        ensures moves { OnOk result (self.new.moves ≡ self.old.moves) }
        ensures done { OnOk result (self.new.done ≡ 0) }
        ensures segment { OnOk result (segment_of self.new.cells ≡ record { start = start; count = room }) }
        ensures log { OnOk result (log_of self.new.cells.log ≡ empty_log (max (log_of self.old.cells.log).pages (pages_of cells))) }
        ensures way { OnOk result (MayBegin code.entry.program.now code.entry.places.now base.now.path.now base.now.frame.now base.now.childless
            (record { start = start; count = room }) → IsUnderWay code.entry.program.now code.entry.places.now self.new) }
    {
        self.base.path.clear();
        self.base.path.extend_from_slice(base.path)?;
        become_copy(&mut self.base.frame, base.frame)?;
        self.span.take_in(base.frame, place_of(code, base.frame))?;
        self.base.childless = base.childless;
        self.done = 0;
        self.deepest = 0;
        self.end = start;
        self.cells.start = start;
        self.cells.own.resize(room, 0)?;
        self.cells.log.clear();
        self.cells.log.widen(cells)?;
        Ok(())
    }
}
