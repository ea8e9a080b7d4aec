//! The limits of a module, each named at the item that passes it.

ghost use Rattle.std.specs.Prelude.{◌≡◌, length};
ghost use Rattle.ir_reader.specs.Counting.{counts_of, are_counts_within, is_within_limits};
ghost use Rattle.ir_reader.specs.Counted.{IsSmall, counts_with, with_instruction};
ghost use Rattle.ir_reader.specs.Defined.{defined_register, option_list};
ghost use Rattle.ir_reader.specs.Limits.{instruction_cells, are_function_notes_within, are_block_notes_within, is_function_head_within};
ghost use Rattle.ir_reader.specs.Limits.{is_block_head_within, is_place_within};

use crate::draft::{Draft, LineContext};
use crate::item::Item;
use crate::scope::defined_register;
use syntax::{Block, BlockNotes, Function, FunctionNotes, Instruction, Module};

/// Of a text.
pub const MAX_BYTES: usize = 1_048_576;

/// Of a module.
const MAX_FUNCTIONS: usize = 256;

/// Of all globals of a module.
const MAX_GLOBAL_CELLS: u128 = 1_048_576;

/// Of a function.
const MAX_BLOCKS: usize = 1024;

/// Of a function: parameters, pointers and regions too.
const MAX_REGISTERS: u64 = 4096;

/// Of a function.
const MAX_PARAMETERS: usize = 16;

/// Of all `alloca`s of a function.
const MAX_ALLOCA_CELLS: u128 = 4096;

/// Lines of one annotation word at one place: a function's head, a block's head, the lines before an instruction.
const MAX_LINES: usize = 32;

/// What is counted as the items come. Cells are wide enough for any one item more.
#[derive(Clone, Copy)]
pub struct Counts {
    /// Of all globals.
    pub global_cells: u128,
    /// Registers of the open function.
    pub registers: u64,
    /// Of the `alloca`s of the open function.
    pub alloca_cells: u128,
}

fn instruction_cells(instruction: &Instruction) -> u64
    ensures { result ≡ instruction_cells instruction.now }
{
    match instruction {
        Instruction::Alloca { size, .. } => size.cells(),
        _ => 0,
    }
}

fn register_count(instruction: &Instruction) -> u64
    ensures { result ≡ length (option_list (defined_register instruction.now)) }
{
    match defined_register(instruction) {
        None => 0,
        Some(_) => 1,
    }
}

impl Counts {
    pub fn new() -> Counts
        ensures { result ≡ record { global_cells = 0; registers = 0; alloca_cells = 0 } }
    {
        Counts {
            global_cells: 0,
            registers: 0,
            alloca_cells: 0,
        }
    }

    fn with_instruction(self, instruction: &Instruction) -> Counts
        requires { IsSmall self }
        ensures { result ≡ with_instruction self instruction.now }
    {
        let registers = self.registers + register_count(instruction);
        let alloca_cells = self.alloca_cells + u128::from(instruction_cells(instruction));
        Counts {
            global_cells: self.global_cells,
            registers,
            alloca_cells,
        }
    }

    /// With one more item.
    pub fn with(self, item: &Item) -> Counts
        requires { IsSmall self }
        ensures { result ≡ counts_with self item.now }
    {
        match item {
            Item::Global(global) => Counts {
                global_cells: self.global_cells + u128::from(global.cells),
                registers: self.registers,
                alloca_cells: self.alloca_cells,
            },
            Item::Define { parameters, .. } => Counts {
                global_cells: self.global_cells,
                registers: parameters.len() as u64,
                alloca_cells: 0,
            },
            Item::Phi(_) => Counts {
                global_cells: self.global_cells,
                registers: self.registers + 1,
                alloca_cells: self.alloca_cells,
            },
            Item::Instruction(instruction) => self.with_instruction(instruction),
            Item::Close => Counts {
                global_cells: self.global_cells,
                registers: 0,
                alloca_cells: 0,
            },
            Item::Label(_) | Item::Terminator(_) | Item::Annotation(_) => self,
        }
    }
}

fn are_function_notes_within(notes: &FunctionNotes) -> bool
    ensures { result ≡ are_function_notes_within notes.now }
{
    notes.requirements.len() <= MAX_LINES
        && notes.guarantees.len() <= MAX_LINES
        && notes.reads.len() <= MAX_LINES
        && notes.writes.len() <= MAX_LINES
        && notes.adds.len() <= MAX_LINES
}

fn are_block_notes_within(notes: &BlockNotes) -> bool
    ensures { result ≡ are_block_notes_within notes.now }
{
    notes.keeps.len() <= MAX_LINES
        && notes.pending.len() <= MAX_LINES
        && notes.foot.len() <= MAX_LINES
}

fn are_counts_within(counts: Counts) -> bool
    ensures { result ≡ are_counts_within counts }
{
    counts.global_cells <= MAX_GLOBAL_CELLS
        && counts.registers <= MAX_REGISTERS
        && counts.alloca_cells <= MAX_ALLOCA_CELLS
}

fn is_function_head_within(whole: &Module, function: &Function) -> bool
    ensures { result ≡ is_function_head_within whole.now function.now }
{
    whole.functions.len() < MAX_FUNCTIONS
        && function.parameters.len() <= MAX_PARAMETERS
        && are_function_notes_within(&function.notes)
}

fn is_block_head_within(function: &Function, block: &Block) -> bool
    ensures { result ≡ is_block_head_within function.now block.now }
{
    function.blocks.len() < MAX_BLOCKS && are_block_notes_within(&block.notes)
}

fn is_place_within(whole: &Module, place: &LineContext) -> bool
    ensures { result ≡ is_place_within whole.now place.now }
{
    match place {
        LineContext::FunctionHead(head) => is_function_head_within(whole, &head.function),
        LineContext::BlockHead(function, head) => is_block_head_within(function, &head.block),
        LineContext::Body(_, _, shows) => shows.len() <= MAX_LINES,
        LineContext::Outside | LineContext::Phis(_, _) | LineContext::Ended(_, _) => true,
    }
}

/// Whether the draft, of which all but the last item was within the limits, is within them.
pub fn is_within_limits(draft: &Draft, counts: Counts) -> bool
    requires { counts ≡ counts_of draft.now }
    ensures { result ≡ is_within_limits draft.now }
{
    let is_place_within = is_place_within(&draft.whole, &draft.place);
    are_counts_within(counts) && is_place_within
}
