//! Lines of annotations, those of one kind together.

ghost use Rattle.std.specs.Prelude.{◌≡◌, ◌++◌, OnOk, string_bytes, flat_map};
ghost use Rattle.ir_spelling.specs.LineText.{note_line, inequality_line, zone_line, pending_line, left_line, foot_line};
ghost use Rattle.ir_spelling.specs.Pieces.{piece_text};
ghost use Rattle.ir_spelling.specs.LineText.{function_notes_lines};

use crate::pieces::{Piece, push_pieces};
use ir_annotation::push_inequality;
use std::alloc::AllocError;
use syntax::{FunctionNotes, Inequality, Left, Pending, Zone};

fn push_inequality_line(
    out: &mut String,
    word: &str,
    inequality: &Inequality,
) -> Result<(), AllocError>
    ensures { OnOk result (string_bytes out.new ≡ string_bytes out.old ++ inequality_line word.now inequality.now) }
{
    out.push_str("  ;! ")?;
    push_inequality(out, word, inequality)?;
    out.push_str("\n")
}

/// A line of one annotation.
fn push_note(out: &mut String, note: &Piece<'_>) -> Result<(), AllocError>
    ensures { OnOk result (string_bytes out.new ≡ string_bytes out.old ++ note_line (piece_text note.now)) }
{
    push_pieces(out, &[Piece::Text("  ;! "), *note, Piece::Text("\n")])
}

pub fn push_left_line(out: &mut String, left: &Left) -> Result<(), AllocError>
    ensures { OnOk result (string_bytes out.new ≡ string_bytes out.old ++ left_line left.now) }
{
    push_note(out, &Piece::Left(left))
}

pub fn push_inequalities(
    out: &mut String,
    word: &str,
    inequalities: &[Inequality],
) -> Result<(), AllocError>
    ensures { OnOk result (string_bytes out.new ≡ string_bytes out.old ++ flat_map (inequality_line word.now) inequalities.now) }
{
    for inequality in inequalities {
        push_inequality_line(out, word, inequality)?;
    }
    Ok(())
}

fn push_zones(out: &mut String, zones: &[Zone]) -> Result<(), AllocError>
    ensures { OnOk result (string_bytes out.new ≡ string_bytes out.old ++ flat_map zone_line zones.now) }
{
    for zone in zones {
        push_note(out, &Piece::Zone(zone))?;
    }
    Ok(())
}

pub fn push_all_pending(out: &mut String, all: &[Pending]) -> Result<(), AllocError>
    ensures { OnOk result (string_bytes out.new ≡ string_bytes out.old ++ flat_map pending_line all.now) }
{
    for pending in all {
        push_note(out, &Piece::Pending(pending))?;
    }
    Ok(())
}

pub fn push_feet(out: &mut String, feet: &[Zone]) -> Result<(), AllocError>
    ensures { OnOk result (string_bytes out.new ≡ string_bytes out.old ++ flat_map foot_line feet.now) }
{
    for foot in feet {
        push_note(out, &Piece::Foot(foot))?;
    }
    Ok(())
}

/// The lines of what a function reads, writes and adds to.
fn push_function_zones(out: &mut String, notes: &FunctionNotes) -> Result<(), AllocError>
    ensures { OnOk result (string_bytes out.new ≡ string_bytes out.old
        ++ flat_map zone_line notes.now.reads ++ flat_map zone_line notes.now.writes ++ flat_map zone_line notes.now.adds) }
{
    push_zones(out, notes.reads.as_slice())?;
    push_zones(out, notes.writes.as_slice())?;
    push_zones(out, notes.adds.as_slice())
}

#[tactic(auto, unfolding(crate::specs::LineText::function_notes_lines))]
pub fn push_function_notes(out: &mut String, notes: &FunctionNotes) -> Result<(), AllocError>
    ensures { OnOk result (string_bytes out.new ≡ string_bytes out.old ++ function_notes_lines notes.now) }
{
    push_inequalities(out, "requires", notes.requirements.as_slice())?;
    push_inequalities(out, "ensures", notes.guarantees.as_slice())?;
    push_function_zones(out, notes)?;
    push_note(out, &Piece::Measure(&notes.measure))?;
    push_note(out, &Piece::Budget(&notes.budget))
}
