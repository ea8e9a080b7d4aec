//! The globals of a module with their numbers, which a run begins and ends with; cells are set and read by name.

ghost use Rattle.std.specs.Prelude.{◌≡◌, ◌↔◌, ◌<◌, ℕ, [], None, Some, IfNone, IfOk, IfSome, IsSome, IsTrue, length, map, slice_get, slice_set};
ghost use Rattle.std.specs.Bool.{OnFalse, OnTrue};
ghost use Rattle.std.specs.Option.{option_map};
ghost use Rattle.program.specs.declared.function.Program.{Program};
ghost use Rattle.store.specs.Cells.{NamedCells, cell_at};
ghost use Rattle.store.specs.Named.{Sets, cell_named, number_of, size_of, zeros};
ghost use Rattle.store.specs.Made.{IsMadeFor};
ghost use Rattle.store.specs.Named.{HasGlobalCells};
ghost use Rattle.store.specs.Rows.{sizes_of};

use lists::{Name, OutOfMemory};
use program::{GlobalId, Program};
use std::alloc::Global;
use std::marker::Model;
use std::mem;
use verifier::Verified;

/// A global: its name and its numbers.
#[derive(Drop)]
pub(crate) struct GlobalCells {
    pub(crate) name: Name,
    pub(crate) cells: Vec<i64>,
}

impl Model for GlobalCells {
    ghost Value = { NamedCells };

    ghost view = { λ g. record { name = g.name; cells = g.cells.items } };
}

impl GlobalCells {
    /// A copy of the global.
    fn copy(&self) -> Result<GlobalCells, OutOfMemory>
        ensures { IfOk result (λ g. g ≡ self.now) }
    {
        Ok(GlobalCells {
            name: self.name.copy()?,
            cells: self.cells.clone()?,
        })
    }

    fn is_same(&self, other: &GlobalCells) -> bool
        ensures { IsTrue result ↔ (self.now ≡ other.now) }
    {
        self.name.is_same(&other.name) && self.cells.as_slice() == other.cells.as_slice()
    }

    /// Gives a cell a number; false, and nothing is changed, where there is no such cell.
    fn set(&mut self, index: usize, value: i64) -> bool
        ensures there { IsTrue result ↔ (index < length self.old.cells) }
        ensures not_there { OnFalse result (self.new ≡ self.old) }
        ensures set { OnTrue result (self.new ≡ record self.old { cells = slice_set self.old.cells index value }) }
    {
        if index < self.cells.len() {
            self.cells[index] = value;
            true
        } else {
            false
        }
    }
}

/// The memory that a run begins and ends with: the globals of a module, in its order. Contracts see it as their names
/// and numbers.
pub struct Memory {
    pub(crate) alloc: Global,
    pub(crate) globals: Vec<GlobalCells>,
}

/// Written out, so that no crate above proves it anew.
impl Drop for Memory {
    fn drop(self) {
        let Memory {
            alloc: _,
            globals: _,
        } = self;
    }
}

impl Model for Memory {
    ghost use Rattle.std.specs.Prelude.{List};
    ghost use Rattle.store.specs.Cells.{NamedCells};

    ghost Value = { List NamedCells };

    ghost view = { λ m. m.globals.items };
}

impl Memory {
    /// The globals of the module, each cell 0.
    pub fn zeroed(alloc: Global, verified: &Verified) -> Result<Memory, OutOfMemory>
        ensures zeros { IfOk result (λ m. m ≡ map zeros verified.now.globals) }
        ensures cells { IfOk result (λ m. HasGlobalCells verified.now m) }
        ensures made { IfOk result (λ m. IsMadeFor verified.now m) }
    {
        Memory::of_program(alloc, verified.program())
    }

    /// The globals of the program, each cell 0.
    pub fn of_program(alloc: Global, program: &Program) -> Result<Memory, OutOfMemory>
        ensures { IfOk result (λ m. m ≡ map zeros program.now.globals) }
    {
        let mut globals = Vec::new(alloc);
        for global in program.globals.as_slice() {
            globals.push(GlobalCells {
                name: global.name.copy()?,
                cells: vec![in alloc; 0; global.cells as usize]?,
            })?;
        }
        Ok(Memory { alloc, globals })
    }

    /// The number of the global of this name.
    pub(crate) fn find(&self, name: &str) -> Option<usize>
        ensures { result ≡ number_of self.now name.now }
    {
        self.globals
            .iter()
            .position(|global| global.name.as_bytes() == name.as_bytes())
    }

    /// The number of the global of this name, and how many cells it has; none where there is no such global.
    pub fn place_of(&self, name: &str) -> Option<(usize, u64)>
        ensures there { IfSome result (λ place. (number_of self.now name.now ≡ Some place.0)
            × (option_map size_of (slice_get self.now place.0) ≡ Some place.1)) }
        ensures not_there { IfNone result ((index : ℕ) → cell_named self.now name.now index ≡ None) }
    {
        let found = self.find(name)?;
        let global = self.globals.as_slice().get(found)?;
        Some((found, global.cells.len() as u64))
    }

    /// Gives a cell a number; false, and nothing is changed, where there is no such cell.
    pub fn set_global(&mut self, name: &str, index: u64, value: i64) -> bool
        ensures there { IsTrue result ↔ IsSome (cell_named self.old name.now index) }
        ensures not_there { OnFalse result (self.new ≡ self.old) }
        ensures set { OnTrue result ((g : ℕ) → number_of self.old name.now ≡ Some g → Sets self.old self.new g index value) }
        ensures cells { (program : Program) → HasGlobalCells program self.old → HasGlobalCells program self.new }
        ensures sizes { sizes_of self.new ≡ sizes_of self.old }
    {
        match self.find(name) {
            Some(found) => self.set_cell(GlobalId(found), index, value),
            None => false,
        }
    }

    /// What a cell holds; none where there is no such cell.
    pub fn get_global(&self, name: &str, index: u64) -> Option<i64>
        ensures { result ≡ cell_named self.now name.now index }
    {
        match self.find(name) {
            Some(found) => self.cell(GlobalId(found), index),
            None => None,
        }
    }

    /// What a cell holds, by the global's number; none where there is no such cell.
    pub fn cell(&self, global: GlobalId, index: u64) -> Option<i64>
        ensures { result ≡ cell_at self.now global.0 index }
    {
        let found = self.globals.as_slice().get(global.0)?;
        found.cells.as_slice().get(index as usize).copied()
    }

    /// Gives a cell a number, by the global's number; false, and nothing is changed, where there is no such cell.
    pub fn set_cell(&mut self, global: GlobalId, index: u64, value: i64) -> bool
        ensures there { IsTrue result ↔ IsSome (cell_at self.old global.0 index) }
        ensures not_there { OnFalse result (self.new ≡ self.old) }
        ensures set { OnTrue result (Sets self.old self.new global.0 index value) }
        ensures sizes { sizes_of self.new ≡ sizes_of self.old }
    {
        if global.0 < self.globals.len() {
            let found = &mut self.globals[global.0];
            found.set(index as usize, value)
        } else {
            false
        }
    }

    /// A copy of the memory.
    pub fn copy(&self) -> Result<Memory, OutOfMemory>
        ensures { IfOk result (λ m. m ≡ self.now) }
    {
        let mut globals = Vec::new(self.alloc);
        for global in &self.globals {
            globals.push(global.copy()?)?;
        }
        Ok(Memory {
            alloc: self.alloc,
            globals,
        })
    }

    /// Takes all globals out, and leaves none. It takes no memory.
    pub fn take(&mut self) -> Memory
        ensures all { result ≡ self.old }
        ensures none { self.new ≡ [] }
    {
        let globals = mem::replace(&mut self.globals, Vec::new(self.alloc));
        Memory {
            alloc: self.alloc,
            globals,
        }
    }

    /// Whether both have the same globals with the same numbers.
    pub fn same(&self, other: &Memory) -> bool
        ensures { IsTrue result ↔ (self.now ≡ other.now) }
    {
        if self.globals.len() != other.globals.len() {
            return false;
        }
        for i in 0..self.globals.len() {
            if !self.globals[i].is_same(&other.globals[i]) {
                return false;
            }
        }
        true
    }
}
