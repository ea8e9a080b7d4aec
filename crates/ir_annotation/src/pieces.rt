//! What the words of an annotation are made of, and the one call that writes them (printer). An annotation is a list of
//! pieces, and one call writes it: each call by itself could want memory, and who writes would have to ask after each.

ghost use Rattle.std.specs.Prelude.{◌≡◌, ◌++◌, OnOk, OnErr, string_bytes, flat_map};
ghost use Rattle.ir_annotation.specs.Spelling.{mode_text, object_text};
ghost use Rattle.ir_annotation.specs.Pieces.{piece_text};

use crate::spelling::write_form;
use itoa::Buffer;
use lists::Name;
use std::alloc::AllocError;
use syntax::{Address, Form, Mode};

/// A part of an annotation.
#[derive(Clone, Copy)]
pub enum Piece<'a> {
    Text(&'static str),
    /// A name without its sigil.
    Name(&'a Name),
    Mode(Mode),
    /// `%x` or `@x`
    Object(&'a Address),
    Form(&'a Form),
    Count(u64),
}

/// The word of a mode.
pub fn mode_text(mode: Mode) -> &'static str
    ensures { result.now ≡ mode_text mode }
{
    match mode {
        Mode::Reads => "reads",
        Mode::Writes => "writes",
        Mode::Adds => "adds",
    }
}

fn write_object(out: &mut String, object: &Address) -> Result<(), AllocError>
    ensures { OnOk result (string_bytes out.new ≡ string_bytes out.old ++ object_text object.now) }
{
    let (sigil, name) = match object {
        Address::Register(name) => ("%", name),
        Address::Global(name) => ("@", name),
    };
    out.push_str(sigil)?;
    out.push_str(name.as_str())
}

fn write_piece(out: &mut String, piece: &Piece<'_>) -> Result<(), AllocError>
    ensures { OnOk result (string_bytes out.new ≡ string_bytes out.old ++ piece_text piece.now) }
{
    match piece {
        Piece::Text(text) => out.push_str(text),
        Piece::Name(name) => out.push_str(name.as_str()),
        Piece::Mode(mode) => out.push_str(mode_text(*mode)),
        Piece::Object(object) => write_object(out, object),
        Piece::Form(form) => write_form(out, form),
        Piece::Count(count) => out.push_str(Buffer::new().format(*count)),
    }
}

fn write_pieces(out: &mut String, pieces: &[Piece<'_>]) -> Result<(), AllocError>
    ensures { OnOk result (string_bytes out.new ≡ string_bytes out.old ++ flat_map piece_text pieces.now) }
{
    for piece in pieces {
        write_piece(out, piece)?;
    }
    Ok(())
}

/// Adds these pieces, each behind the one before: all of them or none.
pub fn push_pieces(out: &mut String, pieces: &[Piece<'_>]) -> Result<(), AllocError>
    ensures ok { OnOk result (string_bytes out.new ≡ string_bytes out.old ++ flat_map piece_text pieces.now) }
    ensures err { OnErr result (string_bytes out.new ≡ string_bytes out.old) }
{
    let mut words = String::new(*out.allocator());
    write_pieces(&mut words, pieces)?;
    out.push_str(words.as_str())
}
