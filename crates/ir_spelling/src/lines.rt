//! Lines of globals, heads of functions and steps of blocks.

ghost use Rattle.std.specs.Prelude.{◌≡◌, ◌++◌, OnOk, string_bytes, flat_map};
ghost use Rattle.ir_spelling.specs.LineText.{phi_line, step_lines, ending_lines, define_line, global_line};

use crate::instruction_text::{push_instruction, push_phi};
use crate::note_lines::push_inequalities;
use crate::pieces::{Piece, push_pieces};
use crate::spelling::{push_parameters, result_word};
use crate::terminator_text::push_terminator;
use std::alloc::AllocError;
use syntax::{Ending, Function, Global, Phi, Step};

fn push_phi_line(out: &mut String, phi: &Phi) -> Result<(), AllocError>
    ensures { OnOk result (string_bytes out.new ≡ string_bytes out.old ++ phi_line phi.now) }
{
    out.push_str("  ")?;
    push_phi(out, phi)?;
    out.push_str("\n")
}

pub fn push_phis(out: &mut String, phis: &[Phi]) -> Result<(), AllocError>
    ensures { OnOk result (string_bytes out.new ≡ string_bytes out.old ++ flat_map phi_line phis.now) }
{
    for phi in phis {
        push_phi_line(out, phi)?;
    }
    Ok(())
}

#[tactic(auto, unfolding(crate::specs::LineText::step_lines))]
fn push_step(out: &mut String, step: &Step) -> Result<(), AllocError>
    ensures { OnOk result (string_bytes out.new ≡ string_bytes out.old ++ step_lines step.now) }
{
    push_inequalities(out, "shows", step.shows.as_slice())?;
    out.push_str("  ")?;
    push_instruction(out, &step.instruction)?;
    out.push_str("\n")
}

pub fn push_steps(out: &mut String, steps: &[Step]) -> Result<(), AllocError>
    ensures { OnOk result (string_bytes out.new ≡ string_bytes out.old ++ flat_map step_lines steps.now) }
{
    for step in steps {
        push_step(out, step)?;
    }
    Ok(())
}

pub fn push_ending(out: &mut String, ending: &Option<Ending>) -> Result<(), AllocError>
    ensures { OnOk result (string_bytes out.new ≡ string_bytes out.old ++ ending_lines ending.now) }
{
    match ending {
        None => Ok(()),
        Some(ending) => {
            push_inequalities(out, "shows", ending.shows.as_slice())?;
            out.push_str("  ")?;
            push_terminator(out, &ending.terminator)?;
            out.push_str("\n")
        }
    }
}

#[tactic(auto, unfolding(crate::specs::LineText::define_line))]
pub fn push_define(out: &mut String, function: &Function) -> Result<(), AllocError>
    ensures { OnOk result (string_bytes out.new ≡ string_bytes out.old ++ define_line function.now) }
{
    let result = result_word(function.result_type);
    push_pieces(
        out,
        &[
            Piece::Text("define "),
            Piece::Text(result),
            Piece::Text(" @"),
            Piece::Name(&function.name),
            Piece::Text("("),
        ],
    )?;
    push_parameters(out, function.parameters.as_slice())?;
    out.push_str(") {\n")
}

fn push_global(out: &mut String, global: &Global) -> Result<(), AllocError>
    ensures { OnOk result (string_bytes out.new ≡ string_bytes out.old ++ global_line global.now) }
{
    push_pieces(
        out,
        &[
            Piece::Text("@"),
            Piece::Name(&global.name),
            Piece::Text(" = global ["),
            Piece::Cells(global.cells),
            Piece::Text(" x i64] zeroinitializer\n"),
        ],
    )
}

pub fn push_globals(out: &mut String, globals: &[Global]) -> Result<(), AllocError>
    ensures { OnOk result (string_bytes out.new ≡ string_bytes out.old ++ flat_map global_line globals.now) }
{
    for global in globals {
        push_global(out, global)?;
    }
    Ok(())
}
