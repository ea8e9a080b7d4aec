//! The frames of a strand leave their windows for boxes, from which they are published.

ghost use Rattle.std.specs.Prelude.{◌≡◌, ◌≢◌, ◌+◌, ◌<◌, ◌≤◌, ◌^◌, ℕ, OnOk, Some, length};
ghost use Rattle.frame_engine.specs.Items.{item_of};
ghost use Rattle.serial_stack.specs.StackShown.{TextFits};
ghost use Rattle.code_tables.specs.Coded.{AreTables};
ghost use Rattle.strand.specs.Along.{IsSettled, IsUnderWay};
ghost use Rattle.strand.specs.Codes.{HasCodes};
ghost use Rattle.strand.specs.Going.{GoesStill};
ghost use Rattle.strand.specs.Leaving.{BeganAs, IsBaseAbove, IsMade, IsWritten, OutTo, SettlesTop, Waits, WaitsNow};
ghost use Rattle.strand.specs.Spans.{IsSyncOf};

use crate::strand::{Strand, fresh, have_words};
use crate::told::item_at;
use code_tables::Tables;
use frame::{Role, Wait};
use frame_engine::{Frame, Item, Place as TextPlace, Places};
use lists::OutOfMemory;
use program::{Instruction, Program, RegisterId, Terminator};
use window_runs::place_at;
use windows::{Saved, Windows};

/// How a frame waits that made its newest child by this item, and what that one runs. It has made so many.
fn made_by(item: Item<'_>, made: u64) -> (Wait, Role)
    requires { IsMade (item_of item) made }
    ensures { Waits (item_of item.entry) made result.0 result.1 }
{
    match item {
        Item::Does(Instruction::Call { register, .. }) => (
            Wait::Call {
                child: made - 1,
                register: *register,
            },
            Role::Body,
        ),
        Item::Ends(
            Terminator::Detach {
                region,
                continuation,
                ..
            },
        ) => (
            Wait::Nothing,
            Role::Child {
                region: *region,
                continuation: *continuation,
            },
        ),
        _ => unreachable!(),
    }
}

/// The region of a sync.
fn region_of(item: Item<'_>) -> RegisterId
    requires { (region : ℕ) × IsSyncOf (Some (item_of item)) region }
    ensures { IsSyncOf (Some (item_of item.entry)) result.0 }
{
    match item {
        Item::Ends(Terminator::Sync { region, .. }) => *region,
        _ => unreachable!(),
    }
}

/// Writes the window that stands from `base` to `end` into the frame, which goes on at the slot.
#[inline(always)]
fn write_window(
    frame: &mut Frame,
    tables: &Tables,
    windows: &Windows,
    pc: usize,
    base: usize,
    end: usize,
) -> Result<(), OutOfMemory>
    requires code { pc < length tables.now.places }
    requires window { base ≤ end }
    requires there { end ≤ length windows.now.row.items }
    ensures { OnOk result (IsWritten tables.now.places windows.now pc base end frame.old frame.new) }
{
    have_words(&mut frame.registers, end - base)?;
    windows.take_out(base, frame.registers.as_mut_slice());
    let there = place_at(tables, pc);
    frame.function = there.function;
    frame.place = TextPlace {
        block: there.block,
        index: there.index,
    };
    Ok(())
}

/// Where the window of the frame above that of this number begins, counted from the base.
#[inline(always)]
fn base_above(windows: &Windows, number: usize) -> usize
    requires { number < length windows.now.below.items }
    ensures { IsBaseAbove windows.now number result }
{
    if number + 1 < windows.below.len() {
        windows.below[number + 1].base
    } else {
        windows.base
    }
}

impl Strand {
    /// The children of the frame of this number, counted from the base, which made so many since the base was loaded: the base had made some before.
    #[inline(always)]
    fn made_by_now(&self, number: usize, made: u32) -> u64
        requires { number ≡ 0 → self.now.base.frame.made + made < 2 ^ 64 }
        ensures base { number ≡ 0 → result ≡ self.now.base.frame.made + made }
        ensures other { number ≢ 0 → result ≡ made }
    {
        if number == 0 {
            self.base.frame.made + made as u64
        } else {
            made as u64
        }
    }

    /// The frame of this number goes from its window into the box on top, and a box for the one above it stands on that.
    fn give_out_one(
        &mut self,
        program: &Program,
        places: &Places,
        tables: &Tables,
        number: usize,
    ) -> Result<(), OutOfMemory>
        requires fits { HasCodes program.now places.now tables.now (length self.old.moves.items) }
        requires number { number < length self.old.span.windows.below.items }
        requires way { ∥ IsUnderWay program.now places.now self.old ∥₁ }
        ensures only { self.new ≡ record self.old { top = self.new.top; below = self.new.below; spare = self.new.spare } }
        ensures out { OnOk result (OutTo program.now places.now number self.old self.new) }
    {
        let saved = self.span.windows.below[number];
        let made = self.made_by_now(number, saved.made);
        let end = base_above(&self.span.windows, number) - 1;
        let (waits, role) = made_by(item_at(program, tables, saved.at), made);
        let mut frame = fresh(&mut self.spare, self.alloc)?;
        let above = frame.as_mut();
        let top = self.top.as_mut();
        write_window(top, tables, &self.span.windows, saved.pc, saved.base, end)?;
        top.home = saved.home;
        top.made = made;
        top.waits = waits;
        above.role = role;
        above.depth = self.base.frame.depth + number + 1;
        self.push(frame)?;
        Ok(())
    }

    /// What the frame on top waits for.
    fn waits_now(&self, program: &Program, places: &Places, tables: &Tables) -> Wait
        requires fits { HasCodes program.now places.now tables.now (length self.now.moves.items) }
        requires way { ∥ IsUnderWay program.now places.now self.now ∥₁ }
        ensures { WaitsNow program.now places.now self.now result }
    {
        if self.done == 0 {
            self.base.frame.waits
        } else if self.done == self.span.synced {
            Wait::Region(region_of(item_at(program, tables, self.span.synced_at)))
        } else {
            Wait::Nothing
        }
    }

    /// The frame that goes on goes from its window into the box on top.
    fn give_out_top(
        &mut self,
        program: &Program,
        places: &Places,
        tables: &Tables,
    ) -> Result<(), OutOfMemory>
        requires fits { HasCodes program.now places.now tables.now (length self.old.moves.items) }
        requires way { ∥ IsUnderWay program.now places.now self.old ∥₁ }
        ensures only { self.new ≡ record self.old { top = self.new.top } }
        ensures settles { OnOk result (SettlesTop program.now places.now self.old self.new) }
    {
        let waits = self.waits_now(program, places, tables);
        let made = self.made_by_now(self.span.windows.below.len(), self.span.more);
        let place = self.span.place;
        let (base, home) = (self.span.windows.base, self.span.windows.home);
        let top = self.top.as_mut();
        write_window(top, tables, &self.span.windows, place.pc, base, place.end)?;
        top.home = home;
        top.made = made;
        top.waits = waits;
        Ok(())
    }

    /// The base's box is on top, and no other is in use.
    fn begin_boxes(&mut self) -> Result<(), OutOfMemory>
        ensures only { self.new ≡ record self.old { top = self.new.top; below = self.new.below; spare = self.new.spare } }
        ensures begins { OnOk result (BeganAs self.new) }
    {
        self.spare.append(&mut self.below)?;
        let top = self.top.as_mut();
        top.role = self.base.frame.role;
        top.depth = self.base.frame.depth;
        Ok(())
    }

    /// Writes its frames into boxes, as they are published. The windows stay as they are.
    ///
    /// # Errors
    ///
    /// Memory was refused: nothing of the strand has changed but its boxes.
    pub fn settle(
        &mut self,
        program: &Program,
        places: &Places,
        tables: &Tables,
    ) -> Result<(), OutOfMemory>
        requires text { TextFits program.now places.now (length self.old.moves.items) }
        requires tables { AreTables program.now places.now tables.now }
        requires way { ∥ IsUnderWay program.now places.now self.old ∥₁ }
        ensures only { self.new ≡ record self.old { top = self.new.top; below = self.new.below; spare = self.new.spare } }
        ensures way { ∥ IsUnderWay program.now places.now self.new ∥₁ }
        ensures still { GoesStill program.now places.now self.old self.new }
        ensures settled { OnOk result (∥ IsSettled program.now places.now self.new ∥₁) }
    {
        self.begin_boxes()?;
        for number in 0..self.span.windows.below.len() {
            self.give_out_one(program, places, tables, number)?;
        }
        self.give_out_top(program, places, tables)
    }
}
