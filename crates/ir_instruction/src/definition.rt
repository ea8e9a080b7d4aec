//! From a line that defines a register to its instruction: behind `%d =` and a word (parser).

ghost use Rattle.std.specs.Prelude.{◌≡◌, [], ◌∷◌, codes, option_map};
ghost use Rattle.ir_instruction.specs.Answers.{Finds, Gives};
ghost use Rattle.ir_instruction.specs.Shape.{gaps_of, gap, word, mark, space, operand, pointer};
ghost use Rattle.ir_instruction.specs.Grammar.{binary_shape, binary_from, compare_shape, compare_from, truncate_shape, truncate_from, extend_shape};
ghost use Rattle.ir_instruction.specs.Grammar.{extend_from, alloca_shape, alloca_from, alloca_array_shape, alloca_array_from, element_pointer_shape};
ghost use Rattle.ir_instruction.specs.Grammar.{element_pointer_from, load_shape, load_from, start_region_shape, start_region_from, call_shape, call_from};
ghost use Rattle.ir_instruction.specs.Grammar.{phi_shape, phi_from, binary, alloca, call, fixed};

use crate::ends::{callee_at, last_index_at, last_operands_at, last_pointer_at, last_word_at};
use crate::fault::LineFault;
use crate::front::{
    array_at, behind, behind_mark, behind_name, behind_word, is_word, operand_at, pointer_at,
    width_at,
};
use crate::list::entries_at;
use crate::operator::{operator_of, predicate_at, without_wrap};
use crate::symbol::Symbol;
use ir_lex::is_text;
use lists::Name;
use std::alloc::Global;
use syntax::{Address, AllocaSize, BinaryOperator, Conversion, Instruction, Operand, Phi};

fn plain_at(
    register: Name,
    operator: BinaryOperator,
    symbols: &[Symbol],
) -> Result<Instruction, LineFault>
    ensures { Gives (λ made. made) result (option_map (binary_from register operator) (gaps_of binary_shape symbols.now)) }
{
    let Some((width, rest)) = width_at(symbols) else {
        return Err(LineFault::Unexpected);
    };
    let (left, right) = last_operands_at(rest)?;
    Ok(Instruction::Binary {
        register,
        operator,
        width,
        left,
        right,
    })
}

fn binary_at(
    register: Name,
    operator: BinaryOperator,
    symbols: &[Symbol],
) -> Result<Instruction, LineFault>
    ensures { Gives (λ made. made) result (binary register operator symbols.now) }
{
    if !is_word(b"nsw", symbols) {
        return plain_at(register, operator, symbols);
    }
    match without_wrap(operator) {
        None => Err(LineFault::Unexpected),
        Some(operator) => plain_at(register, operator, behind(symbols)),
    }
}

fn compare_at(register: Name, symbols: &[Symbol]) -> Result<Instruction, LineFault>
    ensures { Gives (λ made. made) result (option_map (compare_from register) (gaps_of compare_shape symbols.now)) }
{
    let Some((predicate, rest)) = predicate_at(symbols) else {
        return Err(LineFault::Unexpected);
    };
    let Some((width, rest)) = width_at(rest) else {
        return Err(LineFault::Unexpected);
    };
    let (left, right) = last_operands_at(rest)?;
    Ok(Instruction::Compare {
        register,
        predicate,
        width,
        left,
        right,
    })
}

/// Behind the value of a conversion: `to` and the type that it is converted to.
fn conversion_ends(to: &[u8], symbols: &[Symbol]) -> Option<()>
    ensures { Finds (λ done. done) result (gaps_of (word (codes "to") ∷ space ∷ word to.now ∷ []) symbols.now) }
{
    let Some(rest) = behind_word(b"to", symbols) else {
        return None;
    };
    last_word_at(to, rest)
}

/// The value that is converted: a type, `V`, `to` and a type.
fn converted_at(from: &[u8], to: &[u8], symbols: &[Symbol]) -> Result<Operand, LineFault>
    ensures { Gives (λ found. (found, tt)) result
        (gaps_of (word from.now ∷ space ∷ gap operand ∷ space ∷ word (codes "to") ∷ space ∷ word to.now ∷ []) symbols.now) }
{
    let Some(rest) = behind_word(from, symbols) else {
        return Err(LineFault::Unexpected);
    };
    let (value, rest) = operand_at(rest)?;
    match conversion_ends(to, rest) {
        Some(()) => Ok(value),
        None => Err(LineFault::Unexpected),
    }
}

fn truncate_at(register: Name, symbols: &[Symbol]) -> Result<Instruction, LineFault>
    ensures { Gives (λ made. made) result (option_map (truncate_from register) (gaps_of truncate_shape symbols.now)) }
{
    let value = converted_at(b"i64", b"i32", symbols)?;
    Ok(Instruction::Convert {
        register,
        conversion: Conversion::Truncate,
        value,
    })
}

fn extend_at(
    register: Name,
    conversion: Conversion,
    symbols: &[Symbol],
) -> Result<Instruction, LineFault>
    ensures { Gives (λ made. made) result (option_map (extend_from register conversion) (gaps_of extend_shape symbols.now)) }
{
    let value = converted_at(b"i32", b"i64", symbols)?;
    Ok(Instruction::Convert {
        register,
        conversion,
        value,
    })
}

fn alloca_one_at(register: Name, symbols: &[Symbol]) -> Result<Instruction, LineFault>
    ensures { Gives (λ made. made) result (option_map (alloca_from register) (gaps_of alloca_shape symbols.now)) }
{
    match last_word_at(b"i64", symbols) {
        Some(()) => Ok(Instruction::Alloca {
            register,
            size: AllocaSize::One,
        }),
        None => Err(LineFault::Unexpected),
    }
}

fn alloca_array_at(register: Name, symbols: &[Symbol]) -> Result<Instruction, LineFault>
    ensures { Gives (λ made. made) result (option_map (alloca_array_from register) (gaps_of alloca_array_shape symbols.now)) }
{
    let (cells, rest) = array_at(symbols)?;
    match rest {
        [] => Ok(Instruction::Alloca {
            register,
            size: AllocaSize::Array(cells),
        }),
        _ => Err(LineFault::Unexpected),
    }
}

fn alloca_at(register: Name, symbols: &[Symbol]) -> Result<Instruction, LineFault>
    ensures { Gives (λ made. made) result (alloca register symbols.now) }
{
    if is_word(b"i64", symbols) {
        alloca_one_at(register, symbols)
    } else {
        alloca_array_at(register, symbols)
    }
}

/// `, ptr P, i64 V`
fn element_at(symbols: &[Symbol]) -> Result<(Address, Operand), LineFault>
    ensures { Gives (λ found. (found.0, (found.1, tt))) result
        (gaps_of (mark 44 ∷ space ∷ gap pointer ∷ mark 44 ∷ space ∷ word (codes "i64") ∷ space ∷ gap operand ∷ []) symbols.now) }
{
    let Some(rest) = behind_mark(b',', symbols) else {
        return Err(LineFault::Unexpected);
    };
    let (base, rest) = pointer_at(rest)?;
    let index = last_index_at(rest)?;
    Ok((base, index))
}

fn element_pointer_at(register: Name, symbols: &[Symbol]) -> Result<Instruction, LineFault>
    ensures { Gives (λ made. made) result (option_map (element_pointer_from register) (gaps_of element_pointer_shape symbols.now)) }
{
    let Some(rest) = behind_word(b"inbounds", symbols) else {
        return Err(LineFault::Unexpected);
    };
    let Some(rest) = behind_word(b"i64", rest) else {
        return Err(LineFault::Unexpected);
    };
    let (base, index) = element_at(rest)?;
    Ok(Instruction::ElementPointer {
        register,
        base,
        index,
    })
}

fn load_at(register: Name, symbols: &[Symbol]) -> Result<Instruction, LineFault>
    ensures { Gives (λ made. made) result (option_map (load_from register) (gaps_of load_shape symbols.now)) }
{
    let Some(rest) = behind_word(b"i64", symbols) else {
        return Err(LineFault::Unexpected);
    };
    let address = last_pointer_at(rest)?;
    Ok(Instruction::Load { register, address })
}

/// `()`
fn no_arguments_at(symbols: &[Symbol]) -> Option<()>
    ensures { Finds (λ done. done) result (gaps_of (mark 40 ∷ mark 41 ∷ []) symbols.now) }
{
    let Some(rest) = behind_mark(b'(', symbols) else {
        return None;
    };
    let Some(rest) = behind_mark(b')', rest) else {
        return None;
    };
    match rest {
        [] => Some(()),
        _ => None,
    }
}

fn start_region_at(register: Name, symbols: &[Symbol]) -> Result<Instruction, LineFault>
    ensures { Gives (λ made. made) result (option_map (start_region_from register) (gaps_of start_region_shape symbols.now)) }
{
    let Some(rest) = behind_word(b"token", symbols) else {
        return Err(LineFault::Unexpected);
    };
    let Some(rest) = behind_name(b"llvm.syncregion.start", rest) else {
        return Err(LineFault::Unexpected);
    };
    match no_arguments_at(rest) {
        Some(()) => Ok(Instruction::StartRegion { register }),
        None => Err(LineFault::Unexpected),
    }
}

fn call_number_at(
    alloc: Global,
    register: Name,
    symbols: &[Symbol],
) -> Result<Instruction, LineFault>
    ensures { Gives (λ made. made) result (option_map (call_from register) (gaps_of call_shape symbols.now)) }
{
    let (callee, arguments) = callee_at(alloc, b"i64", symbols)?;
    Ok(Instruction::Call {
        register: Some(register),
        callee,
        arguments,
    })
}

/// Behind `%d = call`.
pub fn call_at(alloc: Global, register: Name, symbols: &[Symbol]) -> Result<Instruction, LineFault>
    ensures { Gives (λ made. made) result (call register symbols.now) }
{
    if is_word(b"token", symbols) {
        start_region_at(register, symbols)
    } else {
        call_number_at(alloc, register, symbols)
    }
}

/// Behind `%d = phi`.
pub fn phi_at(
    alloc: Global,
    register: Name,
    line: u32,
    symbols: &[Symbol],
) -> Result<Phi, LineFault>
    ensures { Gives (λ made. made) result (option_map (phi_from line register) (gaps_of phi_shape symbols.now)) }
{
    let Some((width, rest)) = width_at(symbols) else {
        return Err(LineFault::Unexpected);
    };
    let (entries, rest) = entries_at(alloc, rest)?;
    match rest {
        [] => Ok(Phi {
            line,
            register,
            width,
            entries,
        }),
        _ => Err(LineFault::Unexpected),
    }
}

/// Behind `%d =`, for a word that is neither `phi` nor `call`.
#[tactic(auto, unfolding(crate::specs::Grammar::fixed))]
pub fn fixed_at(register: Name, word: &[u8], symbols: &[Symbol]) -> Result<Instruction, LineFault>
    ensures { Gives (λ made. made) result (fixed register word.now symbols.now) }
{
    if is_text(word, b"icmp") {
        compare_at(register, symbols)
    } else if is_text(word, b"trunc") {
        truncate_at(register, symbols)
    } else if is_text(word, b"sext") {
        extend_at(register, Conversion::SignExtend, symbols)
    } else if is_text(word, b"zext") {
        extend_at(register, Conversion::ZeroExtend, symbols)
    } else if is_text(word, b"alloca") {
        alloca_at(register, symbols)
    } else if is_text(word, b"getelementptr") {
        element_pointer_at(register, symbols)
    } else if is_text(word, b"load") {
        load_at(register, symbols)
    } else {
        match operator_of(word) {
            None => Err(LineFault::Unexpected),
            Some(operator) => binary_at(register, operator, symbols),
        }
    }
}
