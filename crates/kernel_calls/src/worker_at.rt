//! A worker behind a pointer of no type, as C holds it.

ghost use Rattle.std.specs.Prelude.{◌≡◌, Option, None, Some, is_some, true, false};
ghost use Rattle.program.specs.declared.function.Program.{Program};
ghost use Rattle.kernel_calls.specs.OwnedWorkerBlock.{owned};

use crate::block::WorkerBlock;
use crate::loose::Loose;
use std::alloc::Global;
use std::marker::Model;

/// A worker on the heap, or nothing.
#[repr(C)]
pub struct WorkerAt {
    at: *mut u8,
    alloc: Global,
    pub ghost program: { Option Program },
}

impl Model for WorkerAt {
    ghost also_owns = { λ k. owned k.alloc k.at k.program };
}

impl WorkerAt {
    /// Nothing.
    pub fn none(alloc: Global) -> WorkerAt
        ensures { result.program ≡ None }
    {
        WorkerAt {
            at: std::ptr::null_mut(),
            alloc,
        }
    }

    /// Takes the block.
    pub fn held(loose: Loose<WorkerBlock, Global>) -> WorkerAt
        ensures { result.program ≡ Some loose.value }
    {
        let Loose { at, alloc } = loose;
        WorkerAt {
            at: at as *mut u8,
            alloc,
        }
    }

    /// Gives the block back.
    pub fn freed(self) -> Loose<WorkerBlock, Global>
        requires { is_some self.program ≡ true }
        ensures { Some result.value ≡ self.program }
    {
        let WorkerAt { at, alloc } = self;
        Loose {
            at: at as *mut WorkerBlock,
            alloc,
        }
    }

    /// Leaves nothing.
    pub fn gone(self) -> Global
        requires { is_some self.program ≡ false }
    {
        let WorkerAt { at: _, alloc } = self;
        alloc
    }
}

/// By its block, which no other one has.
unsafe impl Send for WorkerAt {}
