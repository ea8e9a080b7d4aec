//! Which names an item defines. Labels, registers and parameters of a function share one name space; globals and functions
//! share another.

ghost use Rattle.std.specs.Prelude.{◌≡◌, ◌∷◌, ◌++◌, [], map, not, IfOk, IsTrue, option_copied};
ghost use Rattle.ir_reader.specs.Defined.{parameter_name, defined_register, option_list, reserved_outside, reserved_inside};
ghost use Rattle.ir_reader.specs.Names.{is_repeated};
ghost use Rattle.ir_reader.specs.Scoping.{repeats, scope_with, enters_again, entered};

use crate::item::Item;
use crate::names::Names;
use lists::{Name, OutOfMemory};
use std::alloc::Global;
use std::hash::RandomState;
use syntax::{Instruction, Parameter};

/// No function and no global may have this name.
const RESERVED_OUTSIDE: &[u8] = b"llvm.syncregion.start";

/// The name of a function's result: no label, register or parameter may have it.
const RESERVED_IN_FUNCTION: &[u8] = b".ret";

/// The names that stand outside functions, and those of the function that is open. Reserved names count as defined.
#[derive(Drop)]
pub struct Scope {
    pub outside: Names,
    pub inside: Names,
}

fn parameter_name(parameter: &Parameter) -> &Name
    ensures { result.now ≡ parameter_name parameter.now }
{
    match parameter {
        Parameter::Number { name } => name,
        Parameter::Pointer { name, .. } => name,
    }
}

pub fn defined_register(instruction: &Instruction) -> Option<&Name>
    ensures { option_copied result ≡ defined_register instruction.now }
{
    match instruction {
        Instruction::Binary { register, .. }
        | Instruction::Compare { register, .. }
        | Instruction::Convert { register, .. }
        | Instruction::Alloca { register, .. }
        | Instruction::ElementPointer { register, .. }
        | Instruction::Load { register, .. }
        | Instruction::StartRegion { register } => Some(register),
        Instruction::Call { register, .. } => register.as_ref(),
        Instruction::Store { .. }
        | Instruction::StoreZeros { .. }
        | Instruction::AtomicAdd { .. } => None,
    }
}

/// Whether all parameters have new names.
fn define_parameters(
    names: &mut Names,
    alloc: Global,
    parameters: &[Parameter],
) -> Result<bool, OutOfMemory>
    ensures fresh { IfOk result (λ fresh. fresh ≡ not (is_repeated names.old (map parameter_name parameters.now))) }
    ensures ok { IfOk result (λ fresh. IsTrue fresh → names.new ≡ names.old ++ map parameter_name parameters.now) }
{
    for parameter in parameters {
        if !names.define(alloc, parameter_name(parameter).as_bytes())? {
            return Ok(false);
        }
    }
    Ok(true)
}

/// Whether the name, if there is one, is new.
fn define_if_named(
    names: &mut Names,
    alloc: Global,
    name: Option<&Name>,
) -> Result<bool, OutOfMemory>
    ensures fresh { IfOk result (λ fresh. fresh ≡ not (is_repeated names.old (option_list (option_copied name.entry)))) }
    ensures ok { IfOk result (λ fresh. IsTrue fresh → names.new ≡ names.old ++ option_list (option_copied name.entry)) }
{
    match name {
        None => Ok(true),
        Some(name) => names.define(alloc, name.as_bytes()),
    }
}

impl Scope {
    pub fn new(alloc: Global, state: RandomState) -> Result<Scope, OutOfMemory>
        ensures { IfOk result (λ s. s ≡ record { outside = reserved_outside ∷ []; inside = [] }) }
    {
        let mut outside = Names::new(alloc, state);
        outside.define(alloc, RESERVED_OUTSIDE)?;
        Ok(Scope {
            outside,
            inside: Names::new(alloc, state),
        })
    }

    /// A function begins.
    fn enter(
        &mut self,
        alloc: Global,
        name: &Name,
        parameters: &[Parameter],
    ) -> Result<bool, OutOfMemory>
        ensures fresh { IfOk result (λ fresh. fresh ≡ not (enters_again self.old name.now parameters.now)) }
        ensures ok { IfOk result (λ fresh. IsTrue fresh → self.new ≡ entered self.old name.now parameters.now) }
    {
        let is_new = self.outside.define(alloc, name.as_bytes())?;
        self.inside.clear();
        self.inside.define(alloc, RESERVED_IN_FUNCTION)?;
        Ok(define_parameters(&mut self.inside, alloc, parameters)? && is_new)
    }

    /// Whether the names that the item defines are new; they stand from now on.
    pub fn define(&mut self, alloc: Global, item: &Item) -> Result<bool, OutOfMemory>
        ensures fresh { IfOk result (λ fresh. fresh ≡ not (repeats self.old item.now)) }
        ensures ok { IfOk result (λ fresh. IsTrue fresh → self.new ≡ scope_with self.old item.now) }
    {
        match item {
            Item::Global(global) => self.outside.define(alloc, global.name.as_bytes()),
            Item::Define {
                name,
                parameters,
                ..
            } => self.enter(alloc, name, parameters.as_slice()),
            Item::Label(label) => self.inside.define(alloc, label.as_bytes()),
            Item::Phi(phi) => self.inside.define(alloc, phi.register.as_bytes()),
            Item::Instruction(instruction) => define_if_named(
                &mut self.inside,
                alloc,
                defined_register(instruction),
            ),
            Item::Close => {
                self.inside.clear();
                Ok(true)
            }
            Item::Terminator(_) | Item::Annotation(_) => Ok(true),
        }
    }
}
