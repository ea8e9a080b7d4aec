//! What an event set: registers and cells with their new values.

use frame::Path;
use std::alloc::Global;

/// An object of a run: a global, or an array of a living frame. Numbers are those of the program.
#[derive(Drop)]
pub enum Thing {
    Global(usize),
    Alloca {
        owner: Path,
        function: usize,
        number: usize,
    },
}

/// Where a cell stands: a global, or an array of a frame, and the place in it.
pub struct CellPlace {
    pub thing: Thing,
    pub index: u64,
}

/// Written out, so that no crate above proves it anew.
impl Drop for CellPlace {
    fn drop(self) {
        let CellPlace { thing: _, index: _ } = self;
    }
}

/// What a register holds.
#[derive(Drop)]
pub enum Value {
    Number(i64),
    Truth(bool),
    Pointer(CellPlace),
}

/// A register of a frame, by its number in the function, and what it was set to.
#[derive(Drop)]
pub struct Setting {
    pub register: usize,
    pub value: Value,
}

/// The registers of one frame that an event set.
pub struct Settings {
    /// The number of the frame's function.
    pub function: usize,
    pub list: Vec<Setting>,
}

/// Written out, so that no crate above proves it anew.
impl Drop for Settings {
    fn drop(self) {
        let Settings {
            function: _,
            list: _,
        } = self;
    }
}

impl Settings {
    /// No registers.
    pub fn none(alloc: Global) -> Settings {
        Settings {
            function: 0,
            list: Vec::new(alloc),
        }
    }
}

/// What an event did to memory.
#[derive(Drop)]
pub enum Written {
    Nothing,
    /// The cell holds this number now.
    Cell { cell: CellPlace, number: i64 },
    /// So many cells from this one on hold 0.
    Zeros { cell: CellPlace, cells: u64 },
}

/// What an event set.
pub struct Change {
    /// In the frame that did the instruction.
    pub own: Settings,
    /// In the frame that it made, or returned to.
    pub other: Settings,
    pub written: Written,
}

/// Written out, so that no crate above proves it anew.
impl Drop for Change {
    fn drop(self) {
        let Change {
            own: _,
            other: _,
            written: _,
        } = self;
    }
}
