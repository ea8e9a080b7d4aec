//! Operands: uses of registers and labels, each defined and of the type that stands there.

ghost use Rattle.std.specs.Prelude.{◌≡◌};
ghost use Rattle.types.specs.names.Operand as spec;
ghost use Rattle.types.specs.names.Scope.{is_number_of as number_of};

use crate::names::TypeFault;
use crate::names::fault::{type_mismatch, unknown_name, unless};
use crate::names::scope::{Named, Register, Scope, is_number_of, is_region, is_truth};
use lists::Name;
use program::{BlockId, Operand, RegisterId, Width};

/// The register of this name.
pub fn resolve_register(scope: &Scope, line: u32, name: &Name) -> Result<Register, TypeFault>
    ensures { result ≡ spec.register_of scope.now line name.now }
{
    match scope.find(name.as_bytes()) {
        None => Err(unknown_name(line)),
        Some(Named::Label(_)) => Err(type_mismatch(line)),
        Some(Named::Register(register)) => Ok(register),
    }
}

/// The block of this label.
pub fn resolve_label(scope: &Scope, line: u32, name: &Name) -> Result<BlockId, TypeFault>
    ensures { result ≡ spec.label_of scope.now line name.now }
{
    match scope.find(name.as_bytes()) {
        None => Err(unknown_name(line)),
        Some(Named::Label(block)) => Ok(block),
        Some(Named::Register(_)) => Err(type_mismatch(line)),
    }
}

/// `%c` of a branch.
pub fn resolve_condition(scope: &Scope, line: u32, name: &Name) -> Result<RegisterId, TypeFault>
    ensures { result ≡ spec.condition_of scope.now line name.now }
{
    let register = resolve_register(scope, line, name)?;
    unless(is_truth(register.holding), type_mismatch(line))?;
    Ok(register.id)
}

/// `%s` of a detach, a reattach, a sync or a `pending` line.
pub fn resolve_region(scope: &Scope, line: u32, name: &Name) -> Result<RegisterId, TypeFault>
    ensures { result ≡ spec.region_of scope.now line name.now }
{
    let register = resolve_register(scope, line, name)?;
    unless(is_region(register.holding), type_mismatch(line))?;
    Ok(register.id)
}

fn resolve_number(
    scope: &Scope,
    line: u32,
    width: Width,
    name: &Name,
) -> Result<RegisterId, TypeFault>
    ensures { result ≡ spec.register_passing (number_of width) scope.now line name.now }
{
    let register = resolve_register(scope, line, name)?;
    unless(is_number_of(width, register.holding), type_mismatch(line))?;
    Ok(register.id)
}

/// The number is one of the width, read as signed.
pub fn fits_width(width: Width, number: i64) -> bool
    ensures { result ≡ spec.fits_width width number }
{
    match width {
        Width::Bits64 => true,
        Width::Bits32 => -2147483648 <= number && number <= 2147483647,
    }
}

/// `T V`
pub fn resolve_operand(
    scope: &Scope,
    line: u32,
    width: Width,
    operand: &syntax::Operand,
) -> Result<Operand, TypeFault>
    ensures { result ≡ spec.operand_of scope.now line width operand.now }
{
    match operand {
        syntax::Operand::Number(number) => {
            unless(fits_width(width, *number), type_mismatch(line))?;
            Ok(Operand::Number(*number))
        }
        syntax::Operand::Register(name) => {
            let register = resolve_number(scope, line, width, name)?;
            Ok(Operand::Register(register))
        }
    }
}
