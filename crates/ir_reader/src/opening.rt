//! Functions and blocks as their first lines open them, and how parts are put behind those that are there.

ghost use Rattle.std.specs.Prelude.{◌≡◌, [], IfOk};
ghost use Rattle.ir_reader.specs.Opening.{zero_form, new_function, new_block, with_global, with_function, with_block, with_phi, with_step, with_ending};

use lists::{Name, OutOfMemory, Seq};
use std::alloc::Global;
use std::mem::replace;
use syntax::{
    Block, BlockNotes, Budget, Ending, Form, Function, FunctionNotes, Inequality, Instruction,
    Left, Measure, Module, Parameter, Phi, ResultType, Step, Terminator,
};

fn zero_form(alloc: Global) -> Form
    ensures { result ≡ zero_form }
{
    Form {
        terms: Seq::new(alloc),
        constant: 0,
    }
}

/// A function with no annotation and no block. What is not written stands on its line.
pub fn new_function(
    alloc: Global,
    line: u32,
    name: Name,
    result_type: ResultType,
    parameters: Seq<Parameter>,
) -> Function
    ensures { result ≡ new_function line name result_type parameters }
{
    let form = zero_form(alloc);
    Function {
        line,
        name,
        result_type,
        parameters,
        notes: FunctionNotes {
            requirements: Seq::new(alloc),
            guarantees: Seq::new(alloc),
            reads: Seq::new(alloc),
            writes: Seq::new(alloc),
            adds: Seq::new(alloc),
            measure: Measure {
                line,
                form,
                bound: 0,
            },
            budget: Budget {
                line,
                self_calls: 0,
                instructions: 0,
            },
        },
        blocks: Seq::new(alloc),
    }
}

/// A block of which only the label stands.
pub fn new_block(alloc: Global, line: u32, label: Name) -> Block
    ensures { result ≡ new_block line label }
{
    let self_calls = zero_form(alloc);
    let instructions = zero_form(alloc);
    Block {
        line,
        label,
        notes: BlockNotes {
            keeps: Seq::new(alloc),
            pending: Seq::new(alloc),
            left: Left {
                line,
                self_calls,
                instructions,
            },
            foot: Seq::new(alloc),
        },
        phis: Seq::new(alloc),
        steps: Seq::new(alloc),
        ending: None,
    }
}

pub fn with_global(mut whole: Module, global: syntax::Global) -> Result<Module, OutOfMemory>
    ensures { IfOk result (λ m. m ≡ with_global whole global) }
{
    match whole.globals.push(global) {
        Ok(()) => Ok(whole),
        Err(refused) => {
            drop(whole);
            Err(refused.into())
        }
    }
}

pub fn with_function(mut whole: Module, function: Function) -> Result<Module, OutOfMemory>
    ensures { IfOk result (λ m. m ≡ with_function whole function) }
{
    match whole.functions.push(function) {
        Ok(()) => Ok(whole),
        Err(refused) => {
            drop(whole);
            Err(refused.into())
        }
    }
}

pub fn with_block(mut function: Function, block: Block) -> Result<Function, OutOfMemory>
    ensures { IfOk result (λ f. f ≡ with_block function block) }
{
    match function.blocks.push(block) {
        Ok(()) => Ok(function),
        Err(refused) => {
            drop(function);
            Err(refused.into())
        }
    }
}

pub fn with_phi(mut block: Block, phi: Phi) -> Result<Block, OutOfMemory>
    ensures { IfOk result (λ b. b ≡ with_phi block phi) }
{
    match block.phis.push(phi) {
        Ok(()) => Ok(block),
        Err(refused) => {
            drop(block);
            Err(refused.into())
        }
    }
}

pub fn with_step(
    mut block: Block,
    line: u32,
    shows: Seq<Inequality>,
    instruction: Instruction,
) -> Result<Block, OutOfMemory>
    ensures { IfOk result (λ b. b ≡ with_step block line shows instruction) }
{
    let step = Step {
        line,
        shows,
        instruction,
    };
    match block.steps.push(step) {
        Ok(()) => Ok(block),
        Err(refused) => {
            drop(block);
            Err(refused.into())
        }
    }
}

pub fn with_ending(
    mut block: Block,
    line: u32,
    shows: Seq<Inequality>,
    terminator: Terminator,
) -> Block
    ensures { result ≡ with_ending block line shows terminator }
{
    let ending = Ending {
        line,
        shows,
        terminator,
    };
    drop(replace(&mut block.ending, Some(ending)));
    block
}
