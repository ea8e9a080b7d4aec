//! A module's canonical text: its lines in order, each kind of annotation together, with what was left out written.

ghost use Rattle.std.specs.Prelude.{◌≡◌, ◌++◌, OnOk, IfOk, string_bytes, flat_map};
ghost use Rattle.ir_text.specs.Items.{module_text};
ghost use Rattle.ir_text.specs.RoundTrip.{IsReadBackAs};
ghost use Rattle.ir_text.specs.Printed.{block_notes_lines, block_lines, function_lines, module_lines};

use ir_spelling::{
    push_all_pending, push_define, push_ending, push_feet, push_function_notes, push_globals,
    push_inequalities, push_left_line, push_phis, push_steps,
};
use lists::OutOfMemory;
use std::alloc;
use std::alloc::AllocError;
use syntax::{Block, BlockNotes, Function, Module};

#[tactic(auto, unfolding(crate::specs::Printed::block_notes_lines))]
fn push_block_notes(out: &mut String, notes: &BlockNotes) -> Result<(), AllocError>
    ensures { OnOk result (string_bytes out.new ≡ string_bytes out.old ++ block_notes_lines notes.now) }
{
    push_inequalities(out, "keeps", notes.keeps.as_slice())?;
    push_all_pending(out, notes.pending.as_slice())?;
    push_left_line(out, &notes.left)?;
    push_feet(out, notes.foot.as_slice())
}

#[tactic(auto, unfolding(crate::specs::Printed::block_lines))]
fn push_block(out: &mut String, block: &Block) -> Result<(), AllocError>
    ensures { OnOk result (string_bytes out.new ≡ string_bytes out.old ++ block_lines block.now) }
{
    out.push_str(block.label.as_str())?;
    out.push_str(":\n")?;
    push_block_notes(out, &block.notes)?;
    push_phis(out, block.phis.as_slice())?;
    push_steps(out, block.steps.as_slice())?;
    push_ending(out, &block.ending)
}

fn push_blocks(out: &mut String, blocks: &[Block]) -> Result<(), AllocError>
    ensures { OnOk result (string_bytes out.new ≡ string_bytes out.old ++ flat_map block_lines blocks.now) }
{
    for block in blocks {
        push_block(out, block)?;
    }
    Ok(())
}

#[tactic(auto, unfolding(crate::specs::Printed::function_lines))]
fn push_function(out: &mut String, function: &Function) -> Result<(), AllocError>
    ensures { OnOk result (string_bytes out.new ≡ string_bytes out.old ++ function_lines function.now) }
{
    push_define(out, function)?;
    push_function_notes(out, &function.notes)?;
    push_blocks(out, function.blocks.as_slice())?;
    out.push_str("}\n")
}

fn push_functions(out: &mut String, functions: &[Function]) -> Result<(), AllocError>
    ensures { OnOk result (string_bytes out.new ≡ string_bytes out.old ++ flat_map function_lines functions.now) }
{
    for function in functions {
        push_function(out, function)?;
    }
    Ok(())
}

/// The lines of a module's parts.
#[tactic(auto, unfolding(crate::specs::Printed::module_lines))]
fn spelled(alloc: alloc::Global, module: &Module) -> Result<String, OutOfMemory>
    ensures { IfOk result (λ text. string_bytes text ≡ module_lines «module».now) }
{
    let mut out = String::new(alloc);
    push_globals(&mut out, module.globals.as_slice())?;
    push_functions(&mut out, module.functions.as_slice())?;
    Ok(out)
}

/// The canonical text of a module. Its lines are those of the module's parts, annotations by kind; between braces they are
/// indented by two spaces, labels excepted. Reading it gives the module again, lines aside, where the text is short enough to be
/// read.
pub fn print(alloc: alloc::Global, module: &Module) -> Result<String, OutOfMemory>
    ensures text { IfOk result (λ text. string_bytes text ≡ module_text «module».now) }
    ensures read_back { IfOk result (λ text. IsReadBackAs «module».now (string_bytes text)) }
{
    spelled(alloc, module)
}
