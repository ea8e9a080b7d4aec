//! Instructions that define no register (`store`, `atomicrmw`, `call`): what stands behind their first word.

ghost use Rattle.std.specs.Prelude.{◌≡◌, [], ◌∷◌, codes, option_map};
ghost use Rattle.ir_instruction.specs.Answers.{Gives};
ghost use Rattle.ir_instruction.specs.Shape.{gaps_of, gap, word, mark, space, operand};
ghost use Rattle.ir_instruction.specs.Grammar.{store_shape, store_from, store_zeros_shape, store_zeros_from, atomic_shape, atomic_from, call_void_shape};
ghost use Rattle.ir_instruction.specs.Grammar.{call_void_from, store};

use crate::ends::{callee_at, last_pointer_at, last_word_at};
use crate::fault::LineFault;
use crate::front::{array_at, behind_mark, behind_word, is_word, operand_at, pointer_at};
use crate::symbol::Symbol;
use std::alloc::Global;
use syntax::{Instruction, Operand};

fn store_number_at(symbols: &[Symbol]) -> Result<Instruction, LineFault>
    ensures { Gives (λ made. made) result (option_map store_from (gaps_of store_shape symbols.now)) }
{
    let Some(rest) = behind_word(b"i64", symbols) else {
        return Err(LineFault::Unexpected);
    };
    let (value, rest) = operand_at(rest)?;
    let address = last_pointer_at(rest)?;
    Ok(Instruction::Store { value, address })
}

fn store_zeros_at(symbols: &[Symbol]) -> Result<Instruction, LineFault>
    ensures { Gives (λ made. made) result (option_map store_zeros_from (gaps_of store_zeros_shape symbols.now)) }
{
    let (cells, rest) = array_at(symbols)?;
    let Some(rest) = behind_word(b"zeroinitializer", rest) else {
        return Err(LineFault::Unexpected);
    };
    let address = last_pointer_at(rest)?;
    Ok(Instruction::StoreZeros { cells, address })
}

/// Behind `store`.
pub fn store_at(symbols: &[Symbol]) -> Result<Instruction, LineFault>
    ensures { Gives (λ made. made) result (store symbols.now) }
{
    if is_word(b"i64", symbols) {
        store_number_at(symbols)
    } else {
        store_zeros_at(symbols)
    }
}

/// `, i64 V seq_cst`
fn summand_at(symbols: &[Symbol]) -> Result<Operand, LineFault>
    ensures { Gives (λ found. (found, tt)) result
        (gaps_of (mark 44 ∷ space ∷ word (codes "i64") ∷ space ∷ gap operand ∷ space ∷ word (codes "seq_cst") ∷ []) symbols.now) }
{
    let Some(rest) = behind_mark(b',', symbols) else {
        return Err(LineFault::Unexpected);
    };
    let Some(rest) = behind_word(b"i64", rest) else {
        return Err(LineFault::Unexpected);
    };
    let (value, rest) = operand_at(rest)?;
    match last_word_at(b"seq_cst", rest) {
        Some(()) => Ok(value),
        None => Err(LineFault::Unexpected),
    }
}

/// Behind `atomicrmw`.
pub fn atomic_at(symbols: &[Symbol]) -> Result<Instruction, LineFault>
    ensures { Gives (λ made. made) result (option_map atomic_from (gaps_of atomic_shape symbols.now)) }
{
    let Some(rest) = behind_word(b"add", symbols) else {
        return Err(LineFault::Unexpected);
    };
    let (address, rest) = pointer_at(rest)?;
    let value = summand_at(rest)?;
    Ok(Instruction::AtomicAdd { address, value })
}

/// Behind `call`.
pub fn call_void_at(alloc: Global, symbols: &[Symbol]) -> Result<Instruction, LineFault>
    ensures { Gives (λ made. made) result (option_map call_void_from (gaps_of call_void_shape symbols.now)) }
{
    let (callee, arguments) = callee_at(alloc, b"void", symbols)?;
    Ok(Instruction::Call {
        register: None,
        callee,
        arguments,
    })
}
