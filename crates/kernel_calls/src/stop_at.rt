//! A stop behind a pointer of no type, as C holds it.

ghost use Rattle.std.specs.Prelude.{◌≡◌, ⊤, Option, None, Some, is_some, true, false};
ghost use Rattle.kernel_calls.specs.OwnedStopBlock.{owned};

use crate::loose::Loose;
use crate::stop::StopBlock;
use std::alloc::Global;
use std::marker::Model;

/// A stop on the heap, or nothing.
#[repr(C)]
pub struct StopAt {
    at: *mut u8,
    alloc: Global,
    pub ghost kept: { Option ⊤ },
}

impl Model for StopAt {
    ghost also_owns = { λ k. owned k.alloc k.at k.kept };
}

impl StopAt {
    /// Nothing.
    pub fn none(alloc: Global) -> StopAt
        ensures { result.kept ≡ None }
    {
        StopAt {
            at: std::ptr::null_mut(),
            alloc,
        }
    }

    /// Takes the block.
    pub fn held(loose: Loose<StopBlock, Global>) -> StopAt
        ensures { result.kept ≡ Some loose.value }
    {
        let Loose { at, alloc } = loose;
        StopAt {
            at: at as *mut u8,
            alloc,
        }
    }

    /// Gives the block back.
    pub fn freed(self) -> Loose<StopBlock, Global>
        requires { is_some self.kept ≡ true }
        ensures { Some result.value ≡ self.kept }
    {
        let StopAt { at, alloc } = self;
        Loose {
            at: at as *mut StopBlock,
            alloc,
        }
    }

    /// Leaves nothing.
    pub fn gone(self) -> Global
        requires { is_some self.kept ≡ false }
    {
        let StopAt { at: _, alloc } = self;
        alloc
    }
}

/// By its block, which no other one has.
unsafe impl Send for StopAt {}
