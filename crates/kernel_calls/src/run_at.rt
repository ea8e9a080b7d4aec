//! A run behind a pointer of no type, as C holds it.

ghost use Rattle.std.specs.Prelude.{◌≡◌, Option, None, Some, is_some, true, false};
ghost use Rattle.kernel_calls.specs.Runs.{Run};
ghost use Rattle.kernel_calls.specs.OwnedRunBlock.{owned};

use crate::block::RunBlock;
use crate::loose::Loose;
use std::alloc::Global;
use std::marker::Model;

/// A run on the heap, or nothing.
#[repr(C)]
pub struct RunAt {
    at: *mut u8,
    alloc: Global,
    pub ghost state: { Option Run },
}

impl Model for RunAt {
    ghost also_owns = { λ k. owned k.alloc k.at k.state };
}

impl RunAt {
    /// Nothing.
    pub fn none(alloc: Global) -> RunAt
        ensures { result.state ≡ None }
    {
        RunAt {
            at: std::ptr::null_mut(),
            alloc,
        }
    }

    /// Takes the block.
    pub fn held(loose: Loose<RunBlock, Global>) -> RunAt
        ensures { result.state ≡ Some loose.value }
    {
        let Loose { at, alloc } = loose;
        RunAt {
            at: at as *mut u8,
            alloc,
        }
    }

    /// Gives the block back.
    pub fn freed(self) -> Loose<RunBlock, Global>
        requires { is_some self.state ≡ true }
        ensures { Some result.value ≡ self.state }
    {
        let RunAt { at, alloc } = self;
        Loose {
            at: at as *mut RunBlock,
            alloc,
        }
    }

    /// Leaves nothing.
    pub fn gone(self) -> Global
        requires { is_some self.state ≡ false }
    {
        let RunAt { at: _, alloc } = self;
        alloc
    }
}

/// By its block, which no other one has.
unsafe impl Send for RunAt {}
