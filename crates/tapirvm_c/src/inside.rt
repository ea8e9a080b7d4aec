//! The calls by which a host looks up what a module that is kept has.

ghost use Rattle.std.specs.Prelude.{◌≡◌, ◌≢◌, ◌≤◌, List, None, Some, length, ℕ};
ghost use Rattle.kernel_calls.specs.Held.{OfHeld, closed};
ghost use Rattle.kernel_calls.specs.Inside.{HasFrames, HasNoBound, IsArgumentRange, IsFoundStatus, IsGlobalAt, IsGlobalOf, LacksName, arguments_in, globals_in};
ghost use Rattle.kernel_calls.specs.Told.{done};
ghost use Rattle.kernel_calls.specs.Words.{StandsIn, not_found};

use kernel_calls::{Handle, Range};
use std::alloc::Global;

/// How many globals the module has.
#[unsafe(no_mangle)]
pub extern "C" fn tapirvm_globals(alloc: Global, handle: &mut Handle) -> usize
    ensures count { result ≡ globals_in handle.old.kernel.program }
    ensures same { handle.new.kernel.program ≡ handle.old.kernel.program }
{
    kernel_calls::count_globals(alloc, handle)
}

/// How many arguments the module's `main` takes.
#[unsafe(no_mangle)]
pub extern "C" fn tapirvm_arguments(alloc: Global, handle: &mut Handle) -> usize
    ensures count { result ≡ arguments_in handle.old.kernel.program }
    ensures same { handle.new.kernel.program ≡ handle.old.kernel.program }
{
    kernel_calls::count_arguments(alloc, handle)
}

/// How many cells of its own a frame of the module has at most.
#[unsafe(no_mangle)]
pub extern "C" fn tapirvm_frame_cells(alloc: Global, handle: &mut Handle) -> u64
    ensures most { HasFrames handle.old.kernel.program result }
    ensures same { handle.new.kernel.program ≡ handle.old.kernel.program }
{
    kernel_calls::count_frame_cells(alloc, handle)
}

/// Finds a global of the module by its name.
#[unsafe(no_mangle)]
pub extern "C" fn tapirvm_global(
    alloc: Global,
    handle: &mut Handle,
    name: &[u8],
    first: &mut u64,
    cells: &mut u64,
) -> u32
    ensures found { result ≡ done → OfHeld handle.old.kernel.program (λ p. IsGlobalOf p name.now first.new cells.new) }
    ensures lacks { result ≡ not_found → OfHeld handle.old.kernel.program (λ p. LacksName p.globals name.now) }
    ensures none { result ≢ done → (first.new ≡ 0) × (cells.new ≡ 0) }
    ensures closed { result ≡ closed → handle.old.kernel.program ≡ None }
    ensures same { handle.new.kernel.program ≡ handle.old.kernel.program }
    ensures statuses { IsFoundStatus result }
{
    let (status, global) = kernel_calls::find_global(alloc, handle, name);
    *first = global.first;
    *cells = global.count;
    status
}

/// Tells the global of this number, from 0.
#[unsafe(no_mangle)]
pub extern "C" fn tapirvm_global_at(
    alloc: Global,
    handle: &mut Handle,
    number: usize,
    out: &mut [u8],
    needed: &mut usize,
    first: &mut u64,
    cells: &mut u64,
) -> u32
    ensures found { result ≡ done → OfHeld handle.old.kernel.program (λ p. (name : List ℕ) × IsGlobalAt p number name first.new cells.new
        × StandsIn out.old name out.new needed.new) }
    ensures lacks { result ≡ not_found → OfHeld handle.old.kernel.program (λ p. length p.globals ≤ number) }
    ensures none { result ≢ done → (first.new ≡ 0) × (cells.new ≡ 0) × (needed.new ≡ 0) × (out.new ≡ out.old) }
    ensures closed { result ≡ closed → handle.old.kernel.program ≡ None }
    ensures same { handle.new.kernel.program ≡ handle.old.kernel.program }
    ensures statuses { IsFoundStatus result }
{
    let (status, global) = kernel_calls::tell_global(alloc, handle, number, out, needed);
    *first = global.first;
    *cells = global.count;
    status
}

/// Tells the argument of this number, from 0: its name is written as far as there is room.
#[unsafe(no_mangle)]
pub extern "C" fn tapirvm_argument_at(
    alloc: Global,
    handle: &mut Handle,
    number: usize,
    out: &mut [u8],
    needed: &mut usize,
    range: &mut Range,
) -> u32
    ensures found { result ≡ done → OfHeld handle.old.kernel.program (λ p. IsArgumentRange p number range.new) }
    ensures lacks { result ≡ not_found → OfHeld handle.old.kernel.program (λ p. arguments_in (Some p) ≤ number) }
    ensures none { result ≢ done → HasNoBound range.new × (needed.new ≡ 0) × (out.new ≡ out.old) }
    ensures closed { result ≡ closed → handle.old.kernel.program ≡ None }
    ensures same { handle.new.kernel.program ≡ handle.old.kernel.program }
    ensures statuses { IsFoundStatus result }
{
    kernel_calls::tell_argument(alloc, handle, number, out, needed, range)
}
