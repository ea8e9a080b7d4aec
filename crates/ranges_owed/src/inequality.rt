//! Inequalities as sums, with arguments for parameters and phis' operands for registers put in (substitution).

ghost use Rattle.std.specs.Prelude.{◌≡◌, ◌++◌, ◌<◌, ◌^◌, ◌⊎◌, ◌*ℤ◌, pos, negsuc, IfOk, OnOk, OnErr, All, length, take, unsigned_abs};
ghost use Rattle.linear.specs.Forms.{AreSmall};
ghost use Rattle.ranges_owed.specs.Inequalities.{operand_for, part_of, parts_of, difference_of, differences_of, argument_operand, argument_moves};
ghost use Rattle.ranges_owed.specs.Inequalities.{result_of, result_moves, register_operand, call_moves};

use crate::sum::{Part, Sum};
use cfg::Move;
use linear::{RegisterId, Term, side_of};
use lists::{OutOfMemory, Seq};
use program::{Argument, Function, Inequality, Operand};
use std::alloc::Global;

/// What the moves put in for a register; a register that they do not name stays.
pub fn operand_for(moves: &[Move], register: RegisterId) -> Operand
    ensures { result ≡ operand_for moves.now register }
{
    for item in moves {
        if item.register.0 == register.0 {
            return item.value;
        }
    }
    Operand::Register(register)
}

/// A coefficient, or its opposite.
fn signed(sign: i64, coefficient: i64) -> i64
    requires sign { (sign ≡ pos 1) ⊎ (sign ≡ negsuc 0) }
    requires coefficient { unsigned_abs coefficient < 2 ^ 24 }
    ensures { result ≡ sign *ℤ coefficient }
{
    sign * coefficient
}

/// Adds the parts, and leaves those that were there in front.
fn add_parts(
    parts: &mut Vec<Part>,
    moves: &[Move],
    sign: i64,
    terms: &[Term],
) -> Result<(), OutOfMemory>
    requires sign { (sign ≡ pos 1) ⊎ (sign ≡ negsuc 0) }
    requires small { AreSmall terms.now }
    ensures ok { OnOk result (parts.new.items ≡ parts.old.items ++ parts_of moves.now sign terms.now) }
    ensures kept { take (length parts.old.items) parts.new.items ≡ parts.old.items }
{
    for term in terms {
        parts.push(Part {
            factor: signed(sign, term.coefficient),
            operand: operand_for(moves, term.register),
        })?;
    }
    Ok(())
}

/// Adds the terms of a form, or their opposites, with the moves' operands put in. Where memory is refused nothing is added.
pub fn push_parts(
    parts: &mut Vec<Part>,
    moves: &[Move],
    sign: i64,
    terms: &[Term],
) -> Result<(), OutOfMemory>
    requires sign { (sign ≡ pos 1) ⊎ (sign ≡ negsuc 0) }
    requires small { AreSmall terms.now }
    ensures ok { OnOk result (parts.new.items ≡ parts.old.items ++ parts_of moves.now sign terms.now) }
    ensures err { OnErr result (parts.new.items ≡ parts.old.items) }
{
    let count = parts.len();
    let added = add_parts(parts, moves, sign, terms);
    if added.is_err() {
        parts.truncate(count);
    }
    added
}

/// The greater side of an inequality without the lesser, with the moves' operands put in.
pub fn difference_of(
    alloc: Global,
    moves: &[Move],
    inequality: &Inequality,
) -> Result<Sum, OutOfMemory>
    ensures { IfOk result (λ s. s ≡ difference_of moves.now inequality.now) }
{
    let high = side_of(&inequality.high);
    let low = side_of(&inequality.low);
    let mut parts = Vec::new(alloc);
    push_parts(&mut parts, moves, 1, high.terms)?;
    push_parts(&mut parts, moves, -1, low.terms)?;
    Ok(Sum {
        constant: high.constant - low.constant,
        parts: Seq::from_vec(parts),
    })
}

/// The greater side of each inequality without the lesser, with the moves' operands put in.
pub fn differences_of(
    alloc: Global,
    moves: &[Move],
    inequalities: &[Inequality],
) -> Result<Vec<Sum>, OutOfMemory>
    ensures { IfOk result (λ sums. sums.items ≡ differences_of moves.now inequalities.now) }
{
    let mut sums = Vec::new(alloc);
    for inequality in inequalities {
        sums.push(difference_of(alloc, moves, inequality)?)?;
    }
    Ok(sums)
}

/// What stands for an argument in a form: a number, and 0 for an object, which no form names.
fn argument_operand(argument: &Argument) -> Operand
    ensures { result ≡ argument_operand argument.now }
{
    match argument {
        Argument::Number(operand) => *operand,
        Argument::Object(_) => Operand::Number(0),
    }
}

/// The arguments for the parameters.
pub fn argument_moves(alloc: Global, arguments: &[Argument]) -> Result<Vec<Move>, OutOfMemory>
    ensures { IfOk result (λ moves. moves.items ≡ argument_moves 0 arguments.now) }
{
    let mut moves = Vec::new(alloc);
    for (index, argument) in arguments.iter().enumerate() {
        moves.push(Move {
            register: RegisterId(index),
            value: argument_operand(argument),
        })?;
    }
    Ok(moves)
}

/// Adds an operand for the result.
fn push_result(
    moves: &mut Vec<Move>,
    function: &Function,
    value: Option<Operand>,
) -> Result<(), OutOfMemory>
    ensures { OnOk result (moves.new.items ≡ moves.old.items ++ result_moves function.now value) }
{
    if let Some(value) = value {
        moves.push(Move {
            register: RegisterId(function.registers.len()),
            value,
        })?;
    }
    Ok(())
}

/// An operand for the result.
pub fn result_moves(
    alloc: Global,
    function: &Function,
    value: Option<Operand>,
) -> Result<Vec<Move>, OutOfMemory>
    ensures { IfOk result (λ moves. moves.items ≡ result_moves function.now value) }
{
    let mut moves = Vec::new(alloc);
    push_result(&mut moves, function, value)?;
    Ok(moves)
}

fn register_operand(register: Option<RegisterId>) -> Option<Operand>
    ensures { result ≡ register_operand register }
{
    match register {
        Some(register) => Some(Operand::Register(register)),
        None => None,
    }
}

/// The arguments for the parameters, and the register of the call for the result.
pub fn call_moves(
    alloc: Global,
    callee: &Function,
    arguments: &[Argument],
    register: Option<RegisterId>,
) -> Result<Vec<Move>, OutOfMemory>
    ensures { IfOk result (λ moves. moves.items ≡ call_moves callee.now arguments.now register) }
{
    let mut moves = argument_moves(alloc, arguments)?;
    push_result(&mut moves, callee, register_operand(register))?;
    Ok(moves)
}
