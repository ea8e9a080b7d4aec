//! How values, types and the words of operations are spelled.

ghost use Rattle.std.specs.Prelude.{◌≡◌, ◌++◌, OnOk, string_bytes, flat_map};
ghost use Rattle.ir_instruction.specs.Spelling.{result_word, predicate_word};
ghost use Rattle.ir_spelling.specs.Spelling.{operator_text, pointer_parameter_text, parameter_text};
ghost use Rattle.ir_spelling.specs.Spelling.{parameters_text, argument_text, arguments_text, behind_comma};

use crate::pieces::{Piece, push_pieces};
use lists::Name;
use std::alloc::AllocError;
use syntax::{Argument, BinaryOperator, Parameter, Predicate, ResultType};

pub fn result_word(result_type: ResultType) -> &'static str
    ensures { result.now ≡ result_word result_type }
{
    match result_type {
        ResultType::Number => "i64",
        ResultType::Void => "void",
    }
}

pub fn operator_text(operator: BinaryOperator) -> &'static str
    ensures { result.now ≡ operator_text operator }
{
    match operator {
        BinaryOperator::Add => "add",
        BinaryOperator::Subtract => "sub",
        BinaryOperator::Multiply => "mul",
        BinaryOperator::AddNoWrap => "add nsw",
        BinaryOperator::SubtractNoWrap => "sub nsw",
        BinaryOperator::MultiplyNoWrap => "mul nsw",
        BinaryOperator::SignedDivide => "sdiv",
        BinaryOperator::UnsignedDivide => "udiv",
        BinaryOperator::SignedRemainder => "srem",
        BinaryOperator::UnsignedRemainder => "urem",
        BinaryOperator::ShiftLeft => "shl",
        BinaryOperator::LogicalShiftRight => "lshr",
        BinaryOperator::ArithmeticShiftRight => "ashr",
        BinaryOperator::And => "and",
        BinaryOperator::Or => "or",
        BinaryOperator::ExclusiveOr => "xor",
    }
}

pub fn predicate_word(predicate: Predicate) -> &'static str
    ensures { result.now ≡ predicate_word predicate }
{
    match predicate {
        Predicate::Equal => "eq",
        Predicate::NotEqual => "ne",
        Predicate::UnsignedGreater => "ugt",
        Predicate::UnsignedAtLeast => "uge",
        Predicate::UnsignedLess => "ult",
        Predicate::UnsignedAtMost => "ule",
        Predicate::SignedGreater => "sgt",
        Predicate::SignedAtLeast => "sge",
        Predicate::SignedLess => "slt",
        Predicate::SignedAtMost => "sle",
    }
}

#[tactic(auto, unfolding(crate::specs::Spelling::pointer_parameter_text))]
fn push_pointer_parameter(
    out: &mut String,
    before: &'static str,
    name: &Name,
    cells: u64,
) -> Result<(), AllocError>
    ensures { OnOk result (string_bytes out.new ≡ string_bytes out.old ++ before.now ++ pointer_parameter_text name.now cells) }
{
    push_pieces(
        out,
        &[
            Piece::Text(before),
            Piece::Text("ptr noalias dereferenceable("),
            Piece::BytesOf(cells),
            Piece::Text(") %"),
            Piece::Name(name),
        ],
    )
}

/// A parameter behind what parts it from the one before.
fn push_parameter(
    out: &mut String,
    before: &'static str,
    parameter: &Parameter,
) -> Result<(), AllocError>
    ensures { OnOk result (string_bytes out.new ≡ string_bytes out.old ++ before.now ++ parameter_text parameter.now) }
{
    match parameter {
        Parameter::Number { name } => push_pieces(
            out,
            &[Piece::Text(before), Piece::Text("i64 %"), Piece::Name(name)],
        ),
        Parameter::Pointer { name, cells } => push_pointer_parameter(out, before, name, *cells),
    }
}

fn push_more_parameters(out: &mut String, parameters: &[Parameter]) -> Result<(), AllocError>
    ensures { OnOk result (string_bytes out.new ≡ string_bytes out.old ++ flat_map (behind_comma parameter_text) parameters.now) }
{
    for parameter in parameters {
        push_parameter(out, ", ", parameter)?;
    }
    Ok(())
}

pub fn push_parameters(out: &mut String, parameters: &[Parameter]) -> Result<(), AllocError>
    ensures { OnOk result (string_bytes out.new ≡ string_bytes out.old ++ parameters_text parameters.now) }
{
    match parameters {
        [] => Ok(()),
        [first, rest @ ..] => {
            push_parameter(out, "", first)?;
            push_more_parameters(out, rest)
        }
    }
}

/// An argument behind what parts it from the one before.
fn push_argument(
    out: &mut String,
    before: &'static str,
    argument: &Argument,
) -> Result<(), AllocError>
    ensures { OnOk result (string_bytes out.new ≡ string_bytes out.old ++ before.now ++ argument_text argument.now) }
{
    match argument {
        Argument::Number(operand) => push_pieces(
            out,
            &[
                Piece::Text(before),
                Piece::Text("i64 "),
                Piece::Value(operand),
            ],
        ),
        Argument::Pointer(address) => push_pieces(
            out,
            &[Piece::Text(before), Piece::Pointer(address)],
        ),
    }
}

fn push_more_arguments(out: &mut String, arguments: &[Argument]) -> Result<(), AllocError>
    ensures { OnOk result (string_bytes out.new ≡ string_bytes out.old ++ flat_map (behind_comma argument_text) arguments.now) }
{
    for argument in arguments {
        push_argument(out, ", ", argument)?;
    }
    Ok(())
}

pub fn push_arguments(out: &mut String, arguments: &[Argument]) -> Result<(), AllocError>
    ensures { OnOk result (string_bytes out.new ≡ string_bytes out.old ++ arguments_text arguments.now) }
{
    match arguments {
        [] => Ok(()),
        [first, rest @ ..] => {
            push_argument(out, "", first)?;
            push_more_arguments(out, rest)
        }
    }
}
