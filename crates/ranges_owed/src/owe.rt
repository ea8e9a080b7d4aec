//! What an instruction owes so that it does not trap: no overflow, no division by 0, indices in their object.

ghost use Rattle.std.specs.Prelude.{◌≡◌, ◌++◌, ◌∷◌, [], true, Some, IfOk, OnOk, slice_get};
ghost use Rattle.program.specs.syntax.declared.operator.BinaryOperator.TheVariants.{AddNoWrap, SubtractNoWrap};
ghost use Rattle.ranges_owed.specs.Inequalities.{difference_of};
ghost use Rattle.ranges_owed.specs.Scales.{is_scale, scale_of};
ghost use Rattle.ranges_owed.specs.Sums.{one};
ghost use Rattle.ranges_owed.specs.Owed.{must, half, greatest, last_bit, is_not_zero, is_not_least_by_minus_one, product_owed, is_amount, binary_owed};
ghost use Rattle.ranges_owed.specs.Owed.{index_owed, inequalities_owed, call_owed, owed, owed_at_end};
ghost use Rattle.program.specs.Objects.{object_cells};

use crate::inequality::{argument_moves, difference_of, result_moves};
use crate::scale::scale_of;
use crate::sum::{Obligation, Part, Sum, opposite};
use cfg::Move;
use lists::{OutOfMemory, Seq};
use program::{
    Argument, BinaryOperator, Function, FunctionId, Inequality, Instruction, ObjectName, Operand,
    Parameter, Program, Terminator, Width,
};
use refusal::rule;
use std::alloc::Global;

/// The size of the least value.
fn half(width: Width) -> i128
    ensures { result ≡ half width }
{
    match width {
        Width::Bits64 => 9_223_372_036_854_775_808,
        Width::Bits32 => 2_147_483_648,
    }
}

fn greatest(width: Width) -> i128
    ensures { result ≡ greatest width }
{
    match width {
        Width::Bits64 => 9_223_372_036_854_775_807,
        Width::Bits32 => 2_147_483_647,
    }
}

/// The greatest amount of a shift.
fn last_bit(width: Width) -> i128
    ensures { result ≡ last_bit width }
{
    match width {
        Width::Bits64 => 63,
        Width::Bits32 => 31,
    }
}

/// Adds that a sum is at least 0.
fn push_must(
    alloc: Global,
    obligations: &mut Vec<Obligation>,
    number: u16,
    sum: Sum,
) -> Result<(), OutOfMemory>
    ensures { OnOk result (obligations.new.items ≡ obligations.old.items ++ must number sum ∷ []) }
{
    let mut choices = Seq::new(alloc);
    choices.push(sum)?;
    obligations.push(Obligation { number, choices })?;
    Ok(())
}

/// Adds the choice that constant + a * x is at least 0.
fn push_choice(
    alloc: Global,
    choices: &mut Seq<Sum>,
    constant: i128,
    a: i64,
    x: Operand,
) -> Result<(), OutOfMemory>
    ensures { OnOk result (choices.new ≡ choices.old ++ one constant a x ∷ []) }
{
    choices.push(Sum::one(alloc, constant, a, x)?)?;
    Ok(())
}

/// y >= 1 or y <= -1
fn push_not_zero(
    alloc: Global,
    obligations: &mut Vec<Obligation>,
    y: Operand,
) -> Result<(), OutOfMemory>
    ensures { OnOk result (obligations.new.items ≡ obligations.old.items ++ is_not_zero y ∷ []) }
{
    let mut choices = Seq::new(alloc);
    push_choice(alloc, &mut choices, -1, 1, y)?;
    push_choice(alloc, &mut choices, -1, -1, y)?;
    obligations.push(Obligation {
        number: rule::DIVISOR,
        choices,
    })?;
    Ok(())
}

/// y >= 0, or y <= -2, or x is above the least value
fn push_not_least_by_minus_one(
    alloc: Global,
    obligations: &mut Vec<Obligation>,
    width: Width,
    x: Operand,
    y: Operand,
) -> Result<(), OutOfMemory>
    ensures { OnOk result (obligations.new.items ≡ obligations.old.items ++ is_not_least_by_minus_one width x y ∷ []) }
{
    let mut choices = Seq::new(alloc);
    push_choice(alloc, &mut choices, 0, 1, y)?;
    push_choice(alloc, &mut choices, -2, -1, y)?;
    push_choice(alloc, &mut choices, greatest(width), 1, x)?;
    obligations.push(Obligation {
        number: rule::DIVISOR,
        choices,
    })?;
    Ok(())
}

fn unsigned_division_owed(alloc: Global, y: Operand) -> Result<Vec<Obligation>, OutOfMemory>
    ensures { IfOk result (λ list. list.items ≡ is_not_zero y ∷ []) }
{
    let mut obligations = Vec::new(alloc);
    push_not_zero(alloc, &mut obligations, y)?;
    Ok(obligations)
}

fn signed_division_owed(
    alloc: Global,
    width: Width,
    x: Operand,
    y: Operand,
) -> Result<Vec<Obligation>, OutOfMemory>
    ensures { IfOk result (λ list. list.items ≡ is_not_zero y ∷ (is_not_least_by_minus_one width x y ∷ [])) }
{
    let mut obligations = Vec::new(alloc);
    push_not_zero(alloc, &mut obligations, y)?;
    push_not_least_by_minus_one(alloc, &mut obligations, width, x, y)?;
    Ok(obligations)
}

/// x + y lies in the width.
fn sum_owed(
    alloc: Global,
    width: Width,
    x: Operand,
    y: Operand,
) -> Result<Vec<Obligation>, OutOfMemory>
    ensures { IfOk result (λ list. list.items ≡ binary_owed AddNoWrap width x y) }
{
    let mut obligations = Vec::new(alloc);
    let above = Sum::two(alloc, half(width), 1, x, 1, y)?;
    push_must(alloc, &mut obligations, rule::NO_SIGNED_WRAP, above)?;
    let below = Sum::two(alloc, greatest(width), -1, x, -1, y)?;
    push_must(alloc, &mut obligations, rule::NO_SIGNED_WRAP, below)?;
    Ok(obligations)
}

/// x - y lies in the width.
fn difference_owed(
    alloc: Global,
    width: Width,
    x: Operand,
    y: Operand,
) -> Result<Vec<Obligation>, OutOfMemory>
    ensures { IfOk result (λ list. list.items ≡ binary_owed SubtractNoWrap width x y) }
{
    let mut obligations = Vec::new(alloc);
    let above = Sum::two(alloc, half(width), 1, x, -1, y)?;
    push_must(alloc, &mut obligations, rule::NO_SIGNED_WRAP, above)?;
    let below = Sum::two(alloc, greatest(width), -1, x, 1, y)?;
    push_must(alloc, &mut obligations, rule::NO_SIGNED_WRAP, below)?;
    Ok(obligations)
}

/// A part lies in the width.
fn push_product(
    alloc: Global,
    obligations: &mut Vec<Obligation>,
    width: Width,
    part: Part,
) -> Result<(), OutOfMemory>
    requires { is_scale part.factor ≡ true }
    ensures { OnOk result (obligations.new.items ≡ obligations.old.items ++ product_owed width (Some part)) }
{
    let above = Sum::one(alloc, half(width), part.factor, part.operand)?;
    push_must(alloc, obligations, rule::NO_SIGNED_WRAP, above)?;
    let below = Sum::one(alloc, greatest(width), opposite(part.factor), part.operand)?;
    push_must(alloc, obligations, rule::NO_SIGNED_WRAP, below)?;
    Ok(())
}

/// x * y lies in the width, and one of them is a number within a million.
fn product_owed(
    alloc: Global,
    width: Width,
    x: Operand,
    y: Operand,
) -> Result<Vec<Obligation>, OutOfMemory>
    ensures { IfOk result (λ list. list.items ≡ product_owed width (scale_of x y)) }
{
    let mut obligations = Vec::new(alloc);
    match scale_of(x, y) {
        Some(part) => push_product(alloc, &mut obligations, width, part)?,
        None => obligations.push(Obligation {
            number: rule::NO_SIGNED_WRAP,
            choices: Seq::new(alloc),
        })?,
    }
    Ok(obligations)
}

/// y is an amount of a shift.
fn amount_owed(alloc: Global, width: Width, y: Operand) -> Result<Vec<Obligation>, OutOfMemory>
    ensures { IfOk result (λ list. list.items ≡ is_amount width y) }
{
    let mut obligations = Vec::new(alloc);
    let least = Sum::one(alloc, 0, 1, y)?;
    push_must(alloc, &mut obligations, rule::SHIFT_AMOUNT, least)?;
    let most = Sum::one(alloc, last_bit(width), -1, y)?;
    push_must(alloc, &mut obligations, rule::SHIFT_AMOUNT, most)?;
    Ok(obligations)
}

fn binary_owed(
    alloc: Global,
    operator: BinaryOperator,
    width: Width,
    x: Operand,
    y: Operand,
) -> Result<Vec<Obligation>, OutOfMemory>
    ensures { IfOk result (λ list. list.items ≡ binary_owed operator width x y) }
{
    match operator {
        BinaryOperator::AddNoWrap => sum_owed(alloc, width, x, y),
        BinaryOperator::SubtractNoWrap => difference_owed(alloc, width, x, y),
        BinaryOperator::MultiplyNoWrap => product_owed(alloc, width, x, y),
        BinaryOperator::SignedDivide | BinaryOperator::SignedRemainder => {
            signed_division_owed(alloc, width, x, y)
        }
        BinaryOperator::UnsignedDivide | BinaryOperator::UnsignedRemainder => {
            unsigned_division_owed(alloc, y)
        }
        BinaryOperator::ShiftLeft
        | BinaryOperator::LogicalShiftRight
        | BinaryOperator::ArithmeticShiftRight => amount_owed(alloc, width, y),
        BinaryOperator::Add
        | BinaryOperator::Subtract
        | BinaryOperator::Multiply
        | BinaryOperator::And
        | BinaryOperator::Or
        | BinaryOperator::ExclusiveOr => Ok(Vec::new(alloc)),
    }
}

/// The cells of an object as the function's text declares it.
fn object_cells(program: &Program, function: &Function, object: ObjectName) -> u64
    ensures { result ≡ object_cells program.now function.now object }
{
    match object {
        ObjectName::Global(global) => match program.globals.as_slice().get(global.0) {
            Some(global) => global.cells,
            None => 0,
        },
        ObjectName::Alloca(alloca) => match function.allocas.as_slice().get(alloca.0) {
            Some(alloca) => alloca.cells,
            None => 0,
        },
        ObjectName::Parameter(register) => match function.parameters.as_slice().get(register.0) {
            Some(Parameter::Pointer { cells }) => *cells,
            Some(Parameter::Number) => 0,
            None => 0,
        },
    }
}

/// The index lies in an object of so many cells.
fn index_owed(alloc: Global, cells: u64, index: Operand) -> Result<Vec<Obligation>, OutOfMemory>
    ensures { IfOk result (λ list. list.items ≡ index_owed cells index) }
{
    let mut obligations = Vec::new(alloc);
    let least = Sum::one(alloc, 0, 1, index)?;
    push_must(alloc, &mut obligations, rule::INDEX, least)?;
    let most = Sum::one(alloc, i128::from(cells) - 1, -1, index)?;
    push_must(alloc, &mut obligations, rule::INDEX, most)?;
    Ok(obligations)
}

/// Each inequality holds with the moves' operands put in.
pub fn inequalities_owed(
    alloc: Global,
    number: u16,
    moves: &[Move],
    inequalities: &[Inequality],
) -> Result<Vec<Obligation>, OutOfMemory>
    ensures { IfOk result (λ list. list.items ≡ inequalities_owed number moves.now inequalities.now) }
{
    let mut obligations = Vec::new(alloc);
    for inequality in inequalities {
        let sum = difference_of(alloc, moves, inequality)?;
        push_must(alloc, &mut obligations, number, sum)?;
    }
    Ok(obligations)
}

/// The callee's `requires`, with the arguments put in.
fn call_owed(
    alloc: Global,
    functions: &[Function],
    callee: FunctionId,
    arguments: &[Argument],
) -> Result<Vec<Obligation>, OutOfMemory>
    ensures { IfOk result (λ list. list.items ≡ call_owed (slice_get functions.now callee.0) arguments.now) }
{
    match functions.get(callee.0) {
        Some(callee) => {
            let moves = argument_moves(alloc, arguments)?;
            inequalities_owed(
                alloc,
                rule::REQUIRES,
                &moves,
                callee.requirements.as_slice(),
            )
        }
        None => Ok(Vec::new(alloc)),
    }
}

/// What the facts at an instruction must show.
pub fn owed(
    alloc: Global,
    program: &Program,
    function: &Function,
    instruction: &Instruction,
) -> Result<Vec<Obligation>, OutOfMemory>
    ensures { IfOk result (λ list. list.items ≡ owed program.now function.now instruction.now) }
{
    match instruction {
        Instruction::Binary {
            operator,
            width,
            left,
            right,
            ..
        } => binary_owed(alloc, *operator, *width, *left, *right),
        Instruction::ElementPointer { object, index, .. } => {
            index_owed(alloc, object_cells(program, function, *object), *index)
        }
        Instruction::Call {
            callee,
            arguments,
            ..
        } => call_owed(
            alloc,
            program.functions.as_slice(),
            *callee,
            arguments.as_slice(),
        ),
        Instruction::Compare { .. }
        | Instruction::Convert { .. }
        | Instruction::Alloca { .. }
        | Instruction::Load { .. }
        | Instruction::Store { .. }
        | Instruction::StoreZeros { .. }
        | Instruction::AtomicAdd { .. }
        | Instruction::StartRegion { .. } => Ok(Vec::new(alloc)),
    }
}

/// What the facts at a terminator must show, but for what stands on its edges.
pub fn owed_at_end(
    alloc: Global,
    function: &Function,
    terminator: &Terminator,
) -> Result<Vec<Obligation>, OutOfMemory>
    ensures { IfOk result (λ list. list.items ≡ owed_at_end function.now terminator.now) }
{
    match terminator {
        Terminator::Return { value } => {
            let moves = result_moves(alloc, function, *value)?;
            inequalities_owed(alloc, rule::ENSURES, &moves, function.guarantees.as_slice())
        }
        Terminator::Jump { .. }
        | Terminator::Branch { .. }
        | Terminator::Switch { .. }
        | Terminator::Detach { .. }
        | Terminator::Reattach { .. }
        | Terminator::Sync { .. } => Ok(Vec::new(alloc)),
    }
}
