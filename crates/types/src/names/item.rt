//! The names behind `@`: globals and functions in one name space (symbol table of a module).

ghost use Rattle.std.specs.Prelude.{◌≡◌, IfOk, OnOk};
ghost use Rattle.types.specs.names.Item as spec;

use crate::names::table::NameTable;
use program::{FunctionId, GlobalId};
use std::alloc::{AllocError, Global};
use std::hash::RandomState;
use syntax::{Function, Module};

/// What a name behind `@` stands for; of a global its number of cells too.
#[derive(Clone, Copy)]
pub enum Item {
    Global { id: GlobalId, cells: u64 },
    Function(FunctionId),
}

/// The names behind `@`: globals and functions share one name space.
pub type Items = NameTable<Item>;

fn add_globals(
    alloc: Global,
    items: &mut Items,
    globals: &[syntax::Global],
) -> Result<(), AllocError>
    ensures { OnOk result (items.new ≡ spec.with_globals 0 items.old globals.now) }
{
    for place in 0..globals.len() {
        let global = &globals[place];
        let item = Item::Global {
            id: GlobalId(place),
            cells: global.cells,
        };
        items.define(alloc, &global.name, item)?;
    }
    Ok(())
}

fn add_functions(alloc: Global, items: &mut Items, functions: &[Function]) -> Result<(), AllocError>
    ensures { OnOk result (items.new ≡ spec.with_functions 0 items.old functions.now) }
{
    for place in 0..functions.len() {
        let item = Item::Function(FunctionId(place));
        items.define(alloc, &functions[place].name, item)?;
    }
    Ok(())
}

/// The names of a module. A name that is defined twice keeps its first meaning.
pub fn items_of(alloc: Global, state: RandomState, whole: &Module) -> Result<Items, AllocError>
    ensures { IfOk result (λ items. items ≡ spec.items_of whole.now) }
{
    let mut items = NameTable::new(alloc, state);
    add_globals(alloc, &mut items, whole.globals.as_slice())?;
    add_functions(alloc, &mut items, whole.functions.as_slice())?;
    Ok(items)
}
