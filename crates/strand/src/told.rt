//! What is seen of a strand's frames: how many, whether one is ready, and what comes next.

ghost use Rattle.std.specs.Prelude.{◌≡◌, ◌≢◌, None, Some, length};
ghost use Rattle.std.specs.List.{list_any};
ghost use Rattle.semantics.specs.Frames as given;
ghost use Rattle.frame_engine.specs.Items.{item_of};
ghost use Rattle.code_tables.specs.Coded.{AreTables};
ghost use Rattle.windows.specs.CodeSlots.{places_of};
ghost use Rattle.strand.specs.Along.{IsUnderWay};
ghost use Rattle.strand.specs.Leaving.{is_detach, made_on_top};
ghost use Rattle.strand.specs.Spans.{next_item, next_place, slot_item};

use crate::strand::Strand;
use code_tables::Tables;
use frame_engine::{Item, Places, function_at};
use program::{Block, Program, Terminator};
use window_runs::place_at;
use windows::CodePlace;

/// What stands at this index of a block.
fn item_in(block: &Block, index: usize) -> Item<'_>
    requires { given.item_of block.now.steps block.now.ending index ≢ None }
    ensures { given.item_of block.now.steps block.now.ending index ≡ Some (item_of result) }
{
    let steps = block.steps.as_slice();
    if index < steps.len() {
        return Item::Does(&steps[index].instruction);
    }
    match &block.ending {
        Some(ending) => Item::Ends(&ending.terminator),
        None => unreachable!(),
    }
}

/// The item of this slot.
pub(crate) fn item_at<'p>(program: &'p Program, tables: &Tables, pc: usize) -> Item<'p>
    requires tables { tables.now.places ≡ places_of program.now }
    requires there { slot_item program.now pc ≢ None }
    ensures { slot_item program.now pc ≡ Some (item_of result) }
{
    let there = place_at(tables, pc);
    let function = function_at(program, there.function);
    item_in(&function.blocks.as_slice()[there.block.0], there.index)
}

fn is_detach(item: Item<'_>) -> bool
    ensures { result ≡ is_detach (Some (item_of item.entry)) }
{
    match item {
        Item::Does(_) => false,
        Item::Ends(terminator) => matches!(terminator, Terminator::Detach { .. }),
    }
}

impl Strand {
    /// How many of its frames stand below the one that goes on.
    pub fn count_below(&self) -> usize
        ensures { result ≡ length self.now.span.windows.below.items }
    {
        self.span.windows.below.len()
    }

    /// Whether a frame below is behind a detach, so that it can go on before the one above it is over.
    pub fn has_ready(&self, program: &Program, places: &Places, tables: &Tables) -> bool
        requires tables { AreTables program.now places.now tables.now }
        requires way { ∥ IsUnderWay program.now places.now self.now ∥₁ }
        ensures { result ≡ list_any (λ saved. is_detach (slot_item program.now saved.at)) self.now.span.windows.below.items }
    {
        for saved in self.span.windows.below.as_slice() {
            if is_detach(item_at(program, tables, saved.at)) {
                return true;
            }
        }
        false
    }

    /// What the frame that goes on does next.
    pub fn next_item<'p>(&self, program: &'p Program, places: &Places, tables: &Tables) -> Item<'p>
        requires tables { AreTables program.now places.now tables.now }
        requires way { ∥ IsUnderWay program.now places.now self.now ∥₁ }
        ensures { next_item program.now self.now ≡ Some (item_of result) }
    {
        item_at(program, tables, self.span.place.pc)
    }

    /// Where that stands.
    pub fn next_place(&self, program: &Program, places: &Places, tables: &Tables) -> CodePlace
        requires tables { AreTables program.now places.now tables.now }
        requires way { ∥ IsUnderWay program.now places.now self.now ∥₁ }
        ensures { next_place program.now self.now ≡ Some result }
    {
        place_at(tables, self.span.place.pc)
    }

    /// How many children the frame that goes on has made.
    pub fn made_on_top(&self, program: &Program, places: &Places) -> u64
        requires way { ∥ IsUnderWay program.now places.now self.now ∥₁ }
        ensures { result ≡ made_on_top self.now }
    {
        if self.span.windows.below.is_empty() {
            self.base.frame.made + self.span.more as u64
        } else {
            self.span.more as u64
        }
    }
}
