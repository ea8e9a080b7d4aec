//! What lines are made of, and the one call that writes them (printer). A line is a list of pieces, and one call writes
//! it: each call by itself could want memory, and who writes would have to ask after each.

ghost use Rattle.std.specs.Prelude.{◌≡◌, ◌++◌, ◌*◌, OnOk, string_bytes, flat_map};
ghost use Rattle.ir_instruction.specs.Spelling.{width_word};
ghost use Rattle.ir_spelling.specs.Spelling.{operand_text, address_text};
ghost use Rattle.ir_spelling.specs.Pieces.{piece_text};

use ir_annotation::{push_budget, push_foot, push_left, push_measure, push_pending, push_zone};
use itoa::Buffer;
use lists::Name;
use std::alloc::AllocError;
use syntax::{Address, Budget, Left, Measure, Operand, Pending, Width, Zone};

/// A part of a line.
#[derive(Clone, Copy)]
pub enum Piece<'a> {
    Text(&'static str),
    /// A name without its sigil.
    Name(&'a Name),
    /// `V`
    Value(&'a Operand),
    /// `ptr P`
    Pointer(&'a Address),
    Number(i64),
    Cells(u64),
    /// The bytes of so many cells.
    BytesOf(u64),
    Width(Width),
    Zone(&'a Zone),
    Measure(&'a Measure),
    Budget(&'a Budget),
    Pending(&'a Pending),
    Left(&'a Left),
    Foot(&'a Zone),
}

fn width_word(width: Width) -> &'static str
    ensures { result.now ≡ width_word width }
{
    match width {
        Width::Bits64 => "i64",
        Width::Bits32 => "i32",
    }
}

fn push_operand(out: &mut String, operand: &Operand) -> Result<(), AllocError>
    ensures { OnOk result (string_bytes out.new ≡ string_bytes out.old ++ operand_text operand.now) }
{
    match operand {
        Operand::Number(number) => out.push_str(Buffer::new().format(*number)),
        Operand::Register(name) => {
            out.push_str("%")?;
            out.push_str(name.as_str())
        }
    }
}

fn push_address(out: &mut String, address: &Address) -> Result<(), AllocError>
    ensures { OnOk result (string_bytes out.new ≡ string_bytes out.old ++ address_text address.now) }
{
    let (before, name) = match address {
        Address::Register(name) => ("ptr %", name),
        Address::Global(name) => ("ptr @", name),
    };
    out.push_str(before)?;
    out.push_str(name.as_str())
}

/// A cell has eight bytes.
fn bytes_of(cells: u64) -> u128
    ensures { result ≡ cells * 8 }
{
    u128::from(cells) * 8
}

fn push_piece(out: &mut String, piece: &Piece<'_>) -> Result<(), AllocError>
    ensures { OnOk result (string_bytes out.new ≡ string_bytes out.old ++ piece_text piece.now) }
{
    match piece {
        Piece::Text(text) => out.push_str(text),
        Piece::Name(name) => out.push_str(name.as_str()),
        Piece::Value(operand) => push_operand(out, operand),
        Piece::Pointer(address) => push_address(out, address),
        Piece::Number(number) => out.push_str(Buffer::new().format(*number)),
        Piece::Cells(cells) => out.push_str(Buffer::new().format(*cells)),
        Piece::BytesOf(cells) => out.push_str(Buffer::new().format(bytes_of(*cells))),
        Piece::Width(width) => out.push_str(width_word(*width)),
        Piece::Zone(zone) => push_zone(out, zone),
        Piece::Measure(measure) => push_measure(out, measure),
        Piece::Budget(budget) => push_budget(out, budget),
        Piece::Pending(pending) => push_pending(out, pending),
        Piece::Left(left) => push_left(out, left),
        Piece::Foot(foot) => push_foot(out, foot),
    }
}

/// Adds these pieces, each behind the one before.
pub fn push_pieces(out: &mut String, pieces: &[Piece<'_>]) -> Result<(), AllocError>
    ensures { OnOk result (string_bytes out.new ≡ string_bytes out.old ++ flat_map piece_text pieces.now) }
{
    for piece in pieces {
        push_piece(out, piece)?;
    }
    Ok(())
}
