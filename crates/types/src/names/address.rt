//! Uses of pointers: whole objects with their cells, and elements that a `getelementptr` gave.

ghost use Rattle.std.specs.Prelude.{◌≡◌};
ghost use Rattle.types.specs.names.Address as spec;
ghost use Rattle.types.specs.names.Table.{look_up};

use crate::names::TypeFault;
use crate::names::fault::{pointer_misuse, type_mismatch, unknown_name, unless};
use crate::names::item::{Item, Items};
use crate::names::operand::resolve_register;
use crate::names::scope::{Holding, Register, Scope, is_step_of};
use lists::Name;
use program::{Address, ObjectName};

/// A whole object with its number of cells.
#[derive(Clone, Copy)]
pub struct WholeObject {
    pub name: ObjectName,
    pub cells: u64,
}

fn resolve_global(items: &Items, line: u32, name: &Name) -> Result<WholeObject, TypeFault>
    ensures { result ≡ spec.as_global line (look_up items.now name.now) }
{
    match items.find(name.as_bytes()) {
        None => Err(unknown_name(line)),
        Some(Item::Function(_)) => Err(type_mismatch(line)),
        Some(Item::Global { id, cells }) => Ok(WholeObject {
            name: ObjectName::Global(id),
            cells,
        }),
    }
}

/// The whole object that a register holds.
pub fn held_object(line: u32, holding: Holding) -> Result<WholeObject, TypeFault>
    ensures { result ≡ spec.as_object line holding }
{
    match holding {
        Holding::Object { name, cells } => Ok(WholeObject { name, cells }),
        Holding::Element => Err(pointer_misuse(line)),
        Holding::Number(_) | Holding::Truth | Holding::Region => Err(type_mismatch(line)),
    }
}

/// A pointer that has to name a whole object: the base of a `getelementptr`, what an array store clears, an argument.
pub fn resolve_object(
    items: &Items,
    scope: &Scope,
    line: u32,
    address: &syntax::Address,
) -> Result<WholeObject, TypeFault>
    ensures { result ≡ spec.object_of items.now scope.now line address.now }
{
    match address {
        syntax::Address::Global(name) => resolve_global(items, line, name),
        syntax::Address::Register(name) => {
            let register = resolve_register(scope, line, name)?;
            held_object(line, register.holding)
        }
    }
}

fn held_address(block: usize, line: u32, register: Register) -> Result<Address, TypeFault>
    ensures { result ≡ spec.as_address block line register register.holding }
{
    match register.holding {
        Holding::Object { name, .. } => Ok(Address::First(name)),
        Holding::Element => {
            unless(is_step_of(block, register.origin), pointer_misuse(line))?;
            Ok(Address::Element(register.id))
        }
        Holding::Number(_) | Holding::Truth | Holding::Region => Err(type_mismatch(line)),
    }
}

/// The address of a load, a store or an atomic add in a block.
pub fn resolve_address(
    items: &Items,
    scope: &Scope,
    block: usize,
    line: u32,
    address: &syntax::Address,
) -> Result<Address, TypeFault>
    ensures { result ≡ spec.address_of items.now scope.now block line address.now }
{
    match address {
        syntax::Address::Global(name) => {
            let object = resolve_global(items, line, name)?;
            Ok(Address::First(object.name))
        }
        syntax::Address::Register(name) => {
            let register = resolve_register(scope, line, name)?;
            held_address(block, line, register)
        }
    }
}
