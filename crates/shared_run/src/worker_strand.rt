//! A worker's strand with its module: it is loaded, goes on outside of the board, and is told of cells.

ghost use Rattle.std.specs.Prelude.{◌≡◌, ◌≢◌, ◌↔◌, ◌≤◌, IfOk, IfSome, IfNone, IsTrue, OnErr, OnOk, Ok, Some, false, length, true};
ghost use Rattle.std.specs.List.{list_any};
ghost use Rattle.semantics.specs.Frames.{Ends};
ghost use Rattle.schedule_core.specs.serial_machine.Decoding.{IsCodeOf};
ghost use Rattle.schedule_core.specs.strand.Leaving.{is_detach};
ghost use Rattle.schedule_core.specs.strand.Spans.{next_item, slot_item};
ghost use Rattle.schedule_core.specs.strand.strand_pages.Logs.{filled_log, is_open};
ghost use Rattle.schedule_core.specs.strand.strand_pages.Tables.{log_of};
ghost use Rattle.schedule_core.specs.Strands.{IsBegun, IsStrandOf, RunsNothing};
ghost use Rattle.schedule_core.specs.Stages.{program_of};
ghost use Rattle.shared_run.specs.Resting.{StaysPut};
ghost use Rattle.shared_run.specs.Strands.{GoesOnBy, IsSettled, IsUp, Onward, StandsSo, is_reattach};

use crate::bench::Bench;
use crate::rest::StrandRest;
use lists::OutOfMemory;
use program::Terminator;
use schedule_core::{
    Decoded, Item, Machine, Strand, StrandPause, Verified, advance_strand, blank_strand,
    fill_strand, fill_strand_ahead, has_ready_below, next_item, settle_strand,
};
use std::alloc::Global;
use std::marker::{Model, PhantomData};

/// The most instructions that a strand does between two publications. This limit cost 0 to 3 of a hundred, and four times as many gained in a sort alone (in
/// ports to plain Rust). That the numbers of a strand's frames fit 64 bits rests on there being one.
pub const MOST_INSTRUCTIONS: u64 = 65_536;

/// How a strand stands.
#[derive(Clone, Copy, PartialEq, Eq)]
pub enum Standing {
    /// It holds no frame.
    Blank,
    /// It can go on.
    Going,
    /// Next is what only the board can do.
    Border,
    /// The next instruction needs one more page of cells than there are.
    Full,
    /// The next instruction loads the cell at this address, which is not at hand.
    Need { at: i64 },
    /// Memory was refused: it holds no frame, and has to be made anew before it holds one.
    Spoilt,
}

impl Standing {
    /// Whether a strand that stands so holds a frame.
    pub(crate) fn is_up(self) -> bool
        ensures { IsTrue result ↔ IsUp self }
    {
        match self {
            Standing::Blank | Standing::Spoilt => false,
            Standing::Going | Standing::Border | Standing::Full | Standing::Need { .. } => true,
        }
    }

    fn of(pause: StrandPause) -> Standing
        ensures { Onward pause result }
    {
        match pause {
            StrandPause::Border => Standing::Border,
            StrandPause::Limit => Standing::Going,
            StrandPause::Full => Standing::Full,
            StrandPause::Need { at } => Standing::Need { at },
        }
    }
}

fn is_reattach(terminator: &Terminator) -> bool
    ensures { result ≡ is_reattach (Some (Ends terminator.now)) }
{
    matches!(terminator, Terminator::Reattach { .. })
}

/// A worker's strand, with the module: what it does outside of the board from the frame on that it runs there. Contracts see it and how it stands.
pub struct WorkerStrand<'p, L: Bench> {
    pub(crate) bench: PhantomData<L>,
    pub(crate) verified: &'p Verified,
    pub(crate) code: &'p Decoded,
    pub(crate) strand: Strand,
    pub(crate) standing: Standing,
    /// Its frames are as a board takes them: nothing has changed since they were written so.
    pub(crate) boxed: bool,
}

/// Written out, so that no crate above proves it anew.
impl<L: Bench> Drop for WorkerStrand<'_, L> {
    fn drop(self) {
        let WorkerStrand {
            bench: _,
            verified: _,
            code: _,
            strand: _,
            standing: _,
            boxed: _,
        } = self;
    }
}

impl<'p, L: Bench> Model for WorkerStrand<'p, L> {
    ghost use Rattle.std.specs.Prelude.{◌≡◌};
    ghost use Rattle.schedule_core.specs.serial_machine.Decoding.{IsCodeOf};
    ghost use Rattle.shared_run.specs.Strands.{Apart, Holds, IsBoxed};

    ghost Value = { Apart };

    ghost view = { λ s. record { strand = s.strand; standing = s.standing } };

    ghost invariant = { λ s. (s.verified.now ≡ L.code) × IsCodeOf s.verified.now s.code.now × Holds s.verified.now s.code.now.places s.strand s.standing × IsBoxed s.verified.now s.strand s.boxed };
}

impl<'p, L: Bench> WorkerStrand<'p, L> {
    /// A strand without a frame.
    ///
    /// # Errors
    ///
    /// Memory was refused.
    pub fn new(
        alloc: Global,
        verified: &'p Verified,
        code: &'p Decoded,
    ) -> Result<WorkerStrand<'p, L>, OutOfMemory>
        requires code { verified.now ≡ L.code }
        requires decoded { IsCodeOf verified.now code.now }
        ensures { IfOk result (λ strand. strand.standing ≡ Standing.Blank) }
    {
        let strand = blank_strand(alloc, verified)?;
        Ok(WorkerStrand {
            bench: PhantomData,
            verified,
            code,
            strand,
            standing: Standing::Blank,
            boxed: false,
        })
    }

    /// How it stands.
    pub fn standing(&self) -> Standing
        ensures { result ≡ self.now.standing }
    {
        self.standing
    }

    /// The instructions since the frame was loaded.
    pub fn done(&self) -> u64
        ensures { result ≡ self.now.strand.done }
    {
        self.strand.done
    }

    /// How many of its frames stand below the one that goes on.
    pub fn frames_below(&self) -> usize
        ensures { result ≡ length self.now.strand.span.windows.below.items }
    {
        self.strand.count_below()
    }

    /// Whether a frame below is behind a detach, so that its task is ready once the strand is published.
    #[tactic(auto, using(crate::proofs::Strands::under_way, crate::proofs::Settling::ready_at))]
    pub fn has_ready_frame(&self) -> bool
        ensures there { IsUp self.now.standing → result ≡ list_any (λ saved. is_detach (slot_item L.code saved.at)) self.now.strand.span.windows.below.items }
        ensures none { ¬ IsUp self.now.standing → result ≡ false }
    {
        self.standing.is_up() && has_ready_below(&self.strand, self.verified, self.code)
    }

    /// Whether it holds a frame, and a reattach is next.
    #[tactic(auto, using(crate::proofs::Strands::under_way, crate::proofs::Settling::none_by_step, crate::proofs::Settling::next_by_end))]
    pub fn is_at_reattach(&self) -> bool
        ensures next { IsUp self.now.standing → result ≡ is_reattach (next_item L.code self.now.strand) }
        ensures none { ¬ IsUp self.now.standing → result ≡ false }
    {
        if !self.standing.is_up() {
            return false;
        }
        match next_item(&self.strand, self.verified, self.code) {
            Item::Does(_) => false,
            Item::Ends(terminator) => is_reattach(terminator),
        }
    }

    /// The strand, where it holds a frame.
    pub(crate) fn held(&self) -> Option<&Strand>
        requires made { IsUp self.now.standing → IsStrandOf L.code self.now.strand }
        ensures there { IfSome result (λ strand. IsUp self.now.standing × (strand.now ≡ self.now.strand)) }
        ensures made { IfSome result (λ strand. IsStrandOf L.code strand.now) }
        ensures none { IfNone result (¬ IsUp self.now.standing) }
    {
        if self.standing.is_up() {
            Some(&self.strand)
        } else {
            None
        }
    }

    /// Its frames, where it holds one, are as a board takes them. That needs no lock, so it is done before one is taken; where it was, nothing is left to do.
    ///
    /// # Errors
    ///
    /// Memory was refused: it stands as before.
    #[tactic(auto, using(crate::proofs::Strands::under_way, crate::proofs::Settling::has_room_up, crate::proofs::Settling::holds_settled, crate::proofs::Settling::strand_of, crate::proofs::Settling::written_strand))]
    pub(crate) fn settle(&mut self) -> Result<(), OutOfMemory>
        ensures only { IsSettled self.old self.new }
        ensures made { OnOk result (IsUp self.new.standing → IsStrandOf L.code self.new.strand) }
    {
        if self.boxed || !self.standing.is_up() {
            return Ok(());
        }
        settle_strand(&mut self.strand, self.verified, self.code)?;
        self.boxed = true;
        Ok(())
    }

    /// Holds no frame from here on.
    pub fn clear(&mut self)
        ensures { ¬ IsUp self.new.standing }
    {
        match self.standing {
            Standing::Spoilt => {}
            _ => self.standing = Standing::Blank,
        }
    }

    /// Makes it anew where memory was refused.
    fn renew(&mut self) -> Result<(), OutOfMemory>
        ensures made { OnOk result (self.new.standing ≢ Standing.Spoilt) }
        ensures spoilt { OnErr result (self.new.standing ≡ Standing.Spoilt) }
    {
        match self.standing {
            Standing::Spoilt => {
                self.strand = blank_strand(self.strand.alloc, self.verified)?;
                self.standing = Standing::Blank;
                self.boxed = false;
            }
            _ => {}
        }
        Ok(())
    }

    /// Loads the frame that the worker runs next, where there is one; whether there is.
    ///
    /// # Errors
    ///
    /// Memory was refused: it is spoilt.
    pub(crate) fn load(&mut self, machine: &Machine<'_>, worker: u8) -> Result<bool, OutOfMemory>
        requires code { program_of machine.now.stage ≡ L.code }
        ensures begun { IfOk result (λ there. IsTrue there → (self.new.standing ≡ Standing.Going) × IsBegun machine.now.stage worker self.new.strand) }
        ensures idle { result ≡ Ok false → RunsNothing machine.now.stage worker }
        ensures none { result ≢ Ok true → ¬ IsUp self.new.standing }
    {
        self.renew()?;
        self.boxed = false;
        match machine.load_strand(worker, &mut self.strand, self.code) {
            Ok(true) => {
                self.standing = Standing::Going;
                Ok(true)
            }
            Ok(false) => {
                self.standing = Standing::Blank;
                Ok(false)
            }
            Err(refused) => {
                self.standing = Standing::Spoilt;
                Err(refused)
            }
        }
    }

    /// Where it can go on, it does, across calls, detaches and what ends them, by so many instructions at most and 65,536 in all. The answer is how it
    /// stands then.
    pub fn advance(&mut self, count: u64) -> Standing
        ensures stands { self.new.standing ≡ result }
        ensures stays { self.old.standing ≢ Standing.Going → self.new ≡ self.old }
        ensures base { result ≢ Standing.Spoilt → self.new.strand.base ≡ self.old.strand.base }
        ensures goes { result ≢ Standing.Spoilt → self.old.standing ≡ Standing.Going → GoesOnBy count self.old self.new }
        ensures why { StandsSo L.code self.new }
    {
        if self.standing != Standing::Going {
            return self.standing;
        }
        self.boxed = false;
        let limit = self
            .strand
            .done
            .saturating_add(count)
            .min(MOST_INSTRUCTIONS);
        match advance_strand(&mut self.strand, self.verified, self.code, limit) {
            Ok(pause) => {
                self.standing = Standing::of(pause);
                self.standing
            }
            Err(OutOfMemory) => {
                self.standing = Standing::Spoilt;
                Standing::Spoilt
            }
        }
    }

    /// The page of the cell that it needs, at this address, holds these values.
    pub(crate) fn fill(&mut self, at: i64, page: &[i64])
        requires few { length page.now ≤ 64 }
        requires needs { self.old.standing ≡ Standing.Need at }
        ensures goes_on { self.new.standing ≡ Standing.Going }
        ensures only { self.new.strand ≡ record self.old.strand { cells = self.new.strand.cells } }
        ensures filled { log_of self.new.strand.cells.log ≡ filled_log (log_of self.old.strand.cells.log) at page.now }
    {
        fill_strand(
            &mut self.strand,
            self.verified,
            self.code.places(),
            at,
            page,
        );
        self.standing = Standing::Going;
        self.boxed = false;
    }

    /// Whether the page of the cell at this address is in use.
    pub fn has_page(&self, at: i64) -> bool
        ensures { result ≡ is_open (log_of self.now.strand.cells.log) at }
    {
        self.strand.has_page(&at)
    }

    /// The page of this address holds these values, where the strand can go on and there is room for it; whether that is so.
    pub(crate) fn fill_ahead(&mut self, at: i64, page: &[i64]) -> bool
        requires few { length page.now ≤ 64 }
        ensures goes_on { result ≡ true → (self.old.standing ≡ Standing.Going) × (self.new.standing ≡ Standing.Going) }
        ensures only { result ≡ true → self.new.strand ≡ record self.old.strand { cells = self.new.strand.cells } }
        ensures filled { result ≡ true → log_of self.new.strand.cells.log ≡ filled_log (log_of self.old.strand.cells.log) at page.now }
        ensures unchanged { result ≡ false → self.new ≡ self.old }
    {
        if self.standing != Standing::Going {
            return false;
        }
        self.boxed = false;
        fill_strand_ahead(
            &mut self.strand,
            self.verified,
            self.code.places(),
            at,
            page,
        )
    }
}

impl<L: Bench> WorkerStrand<'_, L> {
    /// Lets go of the module.
    pub fn rest(self) -> StrandRest
        ensures stays { StaysPut L.code result }
        ensures strand { result.strand ≡ self.entry.strand }
        ensures standing { result.standing ≡ self.entry.standing }
    {
        let WorkerStrand {
            bench: _,
            verified: _,
            code: _,
            strand,
            standing,
            boxed: _,
        } = self;
        StrandRest { strand, standing }
    }
}
