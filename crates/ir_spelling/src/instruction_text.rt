//! How instructions are spelled.

ghost use Rattle.std.specs.Prelude.{◌≡◌, ◌++◌, OnOk, string_bytes, flat_map};
ghost use Rattle.ir_spelling.specs.InstructionText.{conversion_texts, binary_text, compare_text, convert_text, alloca_text, element_pointer_text};
ghost use Rattle.ir_spelling.specs.InstructionText.{load_text, store_text, store_zeros_text, atomic_add_text, call_text, call_void_text};
ghost use Rattle.ir_spelling.specs.InstructionText.{start_region_text, instruction_text, entry_text, entries_text, phi_text};
ghost use Rattle.ir_spelling.specs.Spelling.{behind_comma};

use crate::pieces::{Piece, push_pieces};
use crate::spelling::{operator_text, predicate_word, push_arguments};
use lists::Name;
use std::alloc::AllocError;
use syntax::{
    Address, AllocaSize, Argument, BinaryOperator, Conversion, Instruction, Operand, Phi, PhiEntry,
    Predicate, Width,
};

fn push_binary<'a>(
    out: &mut String,
    register: &'a Name,
    operator: BinaryOperator,
    width: Width,
    left: &'a Operand,
    right: &'a Operand,
) -> Result<(), AllocError>
    ensures { OnOk result (string_bytes out.new ≡ string_bytes out.old ++ binary_text register.now operator width left.now right.now) }
{
    push_pieces(
        out,
        &[
            Piece::Text("%"),
            Piece::Name(register),
            Piece::Text(" = "),
            Piece::Text(operator_text(operator)),
            Piece::Text(" "),
            Piece::Width(width),
            Piece::Text(" "),
            Piece::Value(left),
            Piece::Text(", "),
            Piece::Value(right),
        ],
    )
}

fn push_compare<'a>(
    out: &mut String,
    register: &'a Name,
    predicate: Predicate,
    width: Width,
    left: &'a Operand,
    right: &'a Operand,
) -> Result<(), AllocError>
    ensures { OnOk result (string_bytes out.new ≡ string_bytes out.old ++ compare_text register.now predicate width left.now right.now) }
{
    push_pieces(
        out,
        &[
            Piece::Text("%"),
            Piece::Name(register),
            Piece::Text(" = icmp "),
            Piece::Text(predicate_word(predicate)),
            Piece::Text(" "),
            Piece::Width(width),
            Piece::Text(" "),
            Piece::Value(left),
            Piece::Text(", "),
            Piece::Value(right),
        ],
    )
}

/// What stands before and behind the value.
fn conversion_texts(conversion: Conversion) -> (&'static str, &'static str)
    ensures before { result.0.now ≡ (conversion_texts conversion).0 }
    ensures behind { result.1.now ≡ (conversion_texts conversion).1 }
{
    match conversion {
        Conversion::Truncate => (" = trunc i64 ", " to i32"),
        Conversion::SignExtend => (" = sext i32 ", " to i64"),
        Conversion::ZeroExtend => (" = zext i32 ", " to i64"),
    }
}

fn push_convert<'a>(
    out: &mut String,
    register: &'a Name,
    conversion: Conversion,
    value: &'a Operand,
) -> Result<(), AllocError>
    ensures { OnOk result (string_bytes out.new ≡ string_bytes out.old ++ convert_text register.now conversion value.now) }
{
    let (before, behind) = conversion_texts(conversion);
    push_pieces(
        out,
        &[
            Piece::Text("%"),
            Piece::Name(register),
            Piece::Text(before),
            Piece::Value(value),
            Piece::Text(behind),
        ],
    )
}

fn push_alloca(out: &mut String, register: &Name, size: AllocaSize) -> Result<(), AllocError>
    ensures { OnOk result (string_bytes out.new ≡ string_bytes out.old ++ alloca_text register.now size) }
{
    match size {
        AllocaSize::One => push_pieces(
            out,
            &[
                Piece::Text("%"),
                Piece::Name(register),
                Piece::Text(" = alloca i64"),
            ],
        ),
        AllocaSize::Array(cells) => push_pieces(
            out,
            &[
                Piece::Text("%"),
                Piece::Name(register),
                Piece::Text(" = alloca ["),
                Piece::Cells(cells),
                Piece::Text(" x i64]"),
            ],
        ),
    }
}

fn push_element_pointer<'a>(
    out: &mut String,
    register: &'a Name,
    base: &'a Address,
    index: &'a Operand,
) -> Result<(), AllocError>
    ensures { OnOk result (string_bytes out.new ≡ string_bytes out.old ++ element_pointer_text register.now base.now index.now) }
{
    push_pieces(
        out,
        &[
            Piece::Text("%"),
            Piece::Name(register),
            Piece::Text(" = getelementptr inbounds i64, "),
            Piece::Pointer(base),
            Piece::Text(", i64 "),
            Piece::Value(index),
        ],
    )
}

fn push_load<'a>(
    out: &mut String,
    register: &'a Name,
    address: &'a Address,
) -> Result<(), AllocError>
    ensures { OnOk result (string_bytes out.new ≡ string_bytes out.old ++ load_text register.now address.now) }
{
    push_pieces(
        out,
        &[
            Piece::Text("%"),
            Piece::Name(register),
            Piece::Text(" = load i64, "),
            Piece::Pointer(address),
        ],
    )
}

fn push_store<'a>(
    out: &mut String,
    value: &'a Operand,
    address: &'a Address,
) -> Result<(), AllocError>
    ensures { OnOk result (string_bytes out.new ≡ string_bytes out.old ++ store_text value.now address.now) }
{
    push_pieces(
        out,
        &[
            Piece::Text("store i64 "),
            Piece::Value(value),
            Piece::Text(", "),
            Piece::Pointer(address),
        ],
    )
}

fn push_store_zeros(out: &mut String, cells: u64, address: &Address) -> Result<(), AllocError>
    ensures { OnOk result (string_bytes out.new ≡ string_bytes out.old ++ store_zeros_text cells address.now) }
{
    push_pieces(
        out,
        &[
            Piece::Text("store ["),
            Piece::Cells(cells),
            Piece::Text(" x i64] zeroinitializer, "),
            Piece::Pointer(address),
        ],
    )
}

fn push_atomic_add<'a>(
    out: &mut String,
    address: &'a Address,
    value: &'a Operand,
) -> Result<(), AllocError>
    ensures { OnOk result (string_bytes out.new ≡ string_bytes out.old ++ atomic_add_text address.now value.now) }
{
    push_pieces(
        out,
        &[
            Piece::Text("atomicrmw add "),
            Piece::Pointer(address),
            Piece::Text(", i64 "),
            Piece::Value(value),
            Piece::Text(" seq_cst"),
        ],
    )
}

#[tactic(auto, unfolding(crate::specs::InstructionText::call_text))]
fn push_call<'a>(
    out: &mut String,
    register: &'a Name,
    callee: &'a Name,
    arguments: &'a [Argument],
) -> Result<(), AllocError>
    ensures { OnOk result (string_bytes out.new ≡ string_bytes out.old ++ call_text register.now callee.now arguments.now) }
{
    push_pieces(
        out,
        &[
            Piece::Text("%"),
            Piece::Name(register),
            Piece::Text(" = call i64 @"),
            Piece::Name(callee),
            Piece::Text("("),
        ],
    )?;
    push_arguments(out, arguments)?;
    out.push_str(")")
}

#[tactic(auto, unfolding(crate::specs::InstructionText::call_void_text))]
fn push_call_void(out: &mut String, callee: &Name, arguments: &[Argument]) -> Result<(), AllocError>
    ensures { OnOk result (string_bytes out.new ≡ string_bytes out.old ++ call_void_text callee.now arguments.now) }
{
    push_pieces(
        out,
        &[
            Piece::Text("call void @"),
            Piece::Name(callee),
            Piece::Text("("),
        ],
    )?;
    push_arguments(out, arguments)?;
    out.push_str(")")
}

fn push_start_region(out: &mut String, register: &Name) -> Result<(), AllocError>
    ensures { OnOk result (string_bytes out.new ≡ string_bytes out.old ++ start_region_text register.now) }
{
    push_pieces(
        out,
        &[
            Piece::Text("%"),
            Piece::Name(register),
            Piece::Text(" = call token @llvm.syncregion.start()"),
        ],
    )
}

/// An instruction that is neither a phi nor a terminator.
pub fn push_instruction(out: &mut String, instruction: &Instruction) -> Result<(), AllocError>
    ensures { OnOk result (string_bytes out.new ≡ string_bytes out.old ++ instruction_text instruction.now) }
{
    match instruction {
        Instruction::Binary {
            register,
            operator,
            width,
            left,
            right,
        } => push_binary(out, register, *operator, *width, left, right),
        Instruction::Compare {
            register,
            predicate,
            width,
            left,
            right,
        } => push_compare(out, register, *predicate, *width, left, right),
        Instruction::Convert {
            register,
            conversion,
            value,
        } => push_convert(out, register, *conversion, value),
        Instruction::Alloca { register, size } => push_alloca(out, register, *size),
        Instruction::ElementPointer {
            register,
            base,
            index,
        } => push_element_pointer(out, register, base, index),
        Instruction::Load { register, address } => push_load(out, register, address),
        Instruction::Store { value, address } => push_store(out, value, address),
        Instruction::StoreZeros { cells, address } => push_store_zeros(out, *cells, address),
        Instruction::AtomicAdd { address, value } => push_atomic_add(out, address, value),
        Instruction::Call {
            register: Some(register),
            callee,
            arguments,
        } => push_call(out, register, callee, arguments.as_slice()),
        Instruction::Call {
            register: None,
            callee,
            arguments,
        } => push_call_void(out, callee, arguments.as_slice()),
        Instruction::StartRegion { register } => push_start_region(out, register),
    }
}

/// An entry behind what parts it from the one before.
fn push_entry(out: &mut String, before: &'static str, entry: &PhiEntry) -> Result<(), AllocError>
    ensures { OnOk result (string_bytes out.new ≡ string_bytes out.old ++ before.now ++ entry_text entry.now) }
{
    push_pieces(
        out,
        &[
            Piece::Text(before),
            Piece::Text("[ "),
            Piece::Value(&entry.value),
            Piece::Text(", %"),
            Piece::Name(&entry.predecessor),
            Piece::Text(" ]"),
        ],
    )
}

fn push_more_entries(out: &mut String, entries: &[PhiEntry]) -> Result<(), AllocError>
    ensures { OnOk result (string_bytes out.new ≡ string_bytes out.old ++ flat_map (behind_comma entry_text) entries.now) }
{
    for entry in entries {
        push_entry(out, ", ", entry)?;
    }
    Ok(())
}

fn push_entries(out: &mut String, entries: &[PhiEntry]) -> Result<(), AllocError>
    ensures { OnOk result (string_bytes out.new ≡ string_bytes out.old ++ entries_text entries.now) }
{
    match entries {
        [] => Ok(()),
        [first, rest @ ..] => {
            push_entry(out, "", first)?;
            push_more_entries(out, rest)
        }
    }
}

pub fn push_phi(out: &mut String, phi: &Phi) -> Result<(), AllocError>
    ensures { OnOk result (string_bytes out.new ≡ string_bytes out.old ++ phi_text phi.now) }
{
    push_pieces(
        out,
        &[
            Piece::Text("%"),
            Piece::Name(&phi.register),
            Piece::Text(" = phi "),
            Piece::Width(phi.width),
            Piece::Text(" "),
        ],
    )?;
    push_entries(out, phi.entries.as_slice())
}
