//! The calls by which a host looks up what a module that is kept has.

ghost use Rattle.std.specs.Prelude.{◌≡◌, ◌≢◌, ◌≤◌, IfNone, IfSome, List, None, Some, length, slice_get, ℕ};
ghost use Rattle.program.specs.declared.function.Global.{Global};
ghost use Rattle.kernel_calls.specs.Held.{OfHeld, closed};
ghost use Rattle.kernel_calls.specs.Inside.{HasFrames, IsFoundStatus, IsGlobalAt, IsGlobalOf, LacksName, arguments_in, globals_in};
ghost use Rattle.kernel_calls.specs.Told.{cells_of, done};
ghost use Rattle.kernel_calls.specs.Words.{StandsIn, not_found};

use crate::cells::{cells_of, most_frame_cells};
use crate::handle::Handle;
use crate::told::{CLOSED, DONE, NOT_FOUND};
use crate::words::put;
use program::{Global, Program};
use std::alloc::Global as Heap;

/// Where the cells of a global begin in the row of all cells, and how many it has.
#[derive(Clone, Copy)]
pub struct GlobalCells {
    pub first: u64,
    pub count: u64,
}

/// Those of no global.
const NONE: GlobalCells = GlobalCells { first: 0, count: 0 };

/// How many globals the module has.
#[tactic(auto, using(crate::proofs::Holding::globals_held, crate::proofs::Holding::globals_none))]
pub fn count_globals(alloc: Heap, handle: &mut Handle) -> usize
    ensures count { result ≡ globals_in handle.old.kernel.program }
    ensures same { handle.new.kernel.program ≡ handle.old.kernel.program }
{
    let Some(block) = handle.take(alloc) else {
        return 0;
    };
    let count = block.as_ref().verified().program().globals.len();
    handle.keep(block);
    count
}

/// How many arguments `main` takes.
#[tactic(auto, using(crate::proofs::Holding::parameters_held, crate::proofs::Holding::parameters_none))]
fn arguments_of(program: &Program) -> usize
    ensures { result ≡ arguments_in (Some program.now) }
{
    match program.functions.as_slice().get(program.main.0) {
        Some(main) => main.parameters.len(),
        None => 0,
    }
}

/// How many arguments the module's `main` takes.
#[tactic(auto, using(crate::proofs::Holding::arguments_held, crate::proofs::Holding::arguments_none))]
pub fn count_arguments(alloc: Heap, handle: &mut Handle) -> usize
    ensures count { result ≡ arguments_in handle.old.kernel.program }
    ensures same { handle.new.kernel.program ≡ handle.old.kernel.program }
{
    let Some(block) = handle.take(alloc) else {
        return 0;
    };
    let count = arguments_of(block.as_ref().verified().program());
    handle.keep(block);
    count
}

/// How many cells of its own a frame of the module has at most.
#[tactic(auto, using(crate::proofs::Holding::frames_held, crate::proofs::Holding::frames_none))]
pub fn count_frame_cells(alloc: Heap, handle: &mut Handle) -> u64
    ensures most { HasFrames handle.old.kernel.program result }
    ensures same { handle.new.kernel.program ≡ handle.old.kernel.program }
{
    let Some(block) = handle.take(alloc) else {
        return 0;
    };
    let most = most_frame_cells(block.as_ref().verified().program());
    handle.keep(block);
    most
}

/// The number of the global of this name.
fn find(globals: &[Global], name: &[u8]) -> Option<usize>
    ensures found { IfSome result (λ k. (g : Global) × (slice_get globals.now k ≡ Some g) × (g.name ≡ name.now)) }
    ensures none { IfNone result (LacksName globals.now name.now) }
{
    for number in 0..globals.len() {
        if globals[number].name.as_bytes() == name {
            return Some(number);
        }
    }
    None
}

/// Finds a global by its name.
#[tactic(auto, using(crate::proofs::Finding::global_found, std::proofs::lemmas::Option::slice_get_within))]
fn global_of(program: &Program, name: &[u8]) -> Option<GlobalCells>
    ensures found { IfSome result (λ cells. IsGlobalOf program.now name.now cells.first cells.count) }
    ensures none { IfNone result (LacksName program.now.globals name.now) }
{
    let globals = program.globals.as_slice();
    let number = find(globals, name)?;
    Some(GlobalCells {
        first: cells_of(&globals[..number]),
        count: globals[number].cells,
    })
}

/// Finds a global of the module by its name.
pub fn find_global(alloc: Heap, handle: &mut Handle, name: &[u8]) -> (u32, GlobalCells)
    ensures found { result.0 ≡ done → OfHeld handle.old.kernel.program (λ p. IsGlobalOf p name.now result.1.first result.1.count) }
    ensures lacks { result.0 ≡ not_found → OfHeld handle.old.kernel.program (λ p. LacksName p.globals name.now) }
    ensures none { result.0 ≢ done → (result.1.first ≡ 0) × (result.1.count ≡ 0) }
    ensures closed { result.0 ≡ closed → handle.old.kernel.program ≡ None }
    ensures same { handle.new.kernel.program ≡ handle.old.kernel.program }
    ensures statuses { IsFoundStatus result.0 }
{
    let Some(block) = handle.take(alloc) else {
        return (CLOSED, NONE);
    };
    let found = global_of(block.as_ref().verified().program(), name);
    handle.keep(block);
    match found {
        Some(cells) => (DONE, cells),
        None => (NOT_FOUND, NONE),
    }
}

/// Tells the global of this number: its name is written as far as there is room.
#[tactic(auto, using(crate::proofs::Finding::global_at))]
fn told(program: &Program, number: usize, out: &mut [u8], needed: &mut usize) -> Option<GlobalCells>
    ensures found { IfSome result (λ cells. (name : List ℕ) × IsGlobalAt program.now number name cells.first cells.count
        × StandsIn out.old name out.new needed.new) }
    ensures none { IfNone result ((length program.now.globals ≤ number) × (out.new ≡ out.old) × (needed.new ≡ needed.old)) }
{
    let globals = program.globals.as_slice();
    if globals.len() <= number {
        return None;
    }
    let global = &globals[number];
    put(global.name.as_bytes(), out, needed);
    Some(GlobalCells {
        first: cells_of(&globals[..number]),
        count: global.cells,
    })
}

/// Tells the global of this number, from 0.
pub fn tell_global(
    alloc: Heap,
    handle: &mut Handle,
    number: usize,
    out: &mut [u8],
    needed: &mut usize,
) -> (u32, GlobalCells)
    ensures found { result.0 ≡ done → OfHeld handle.old.kernel.program (λ p. (name : List ℕ) × IsGlobalAt p number name result.1.first result.1.count
        × StandsIn out.old name out.new needed.new) }
    ensures lacks { result.0 ≡ not_found → OfHeld handle.old.kernel.program (λ p. length p.globals ≤ number) }
    ensures none { result.0 ≢ done → (result.1.first ≡ 0) × (result.1.count ≡ 0) × (needed.new ≡ 0) × (out.new ≡ out.old) }
    ensures closed { result.0 ≡ closed → handle.old.kernel.program ≡ None }
    ensures same { handle.new.kernel.program ≡ handle.old.kernel.program }
    ensures statuses { IsFoundStatus result.0 }
{
    *needed = 0;
    let Some(block) = handle.take(alloc) else {
        return (CLOSED, NONE);
    };
    let told = told(block.as_ref().verified().program(), number, out, needed);
    handle.keep(block);
    match told {
        Some(cells) => (DONE, cells),
        None => (NOT_FOUND, NONE),
    }
}
