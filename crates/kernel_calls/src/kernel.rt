//! A verified module behind a pointer of no type, as C holds it.

ghost use Rattle.std.specs.Prelude.{◌≡◌, Option, None, Some, is_some, true, false};
ghost use Rattle.program.specs.declared.function.Program.{Program};
ghost use Rattle.kernel_calls.specs.Owned.{owned};

use crate::loose::Loose;
use crate::shared::Shared;
use std::alloc::Global;
use std::marker::Model;

/// A verified module on the heap, or nothing.
#[repr(C)]
pub struct Kernel {
    at: *mut u8,
    alloc: Global,
    pub ghost program: { Option Program },
}

impl Model for Kernel {
    ghost also_owns = { λ k. owned k.alloc k.at k.program };
}

impl Kernel {
    /// Nothing.
    pub fn none(alloc: Global) -> Kernel
        ensures { result.program ≡ None }
    {
        Kernel {
            at: std::ptr::null_mut(),
            alloc,
        }
    }

    /// Takes the block of a module.
    pub fn held(loose: Loose<Shared, Global>) -> Kernel
        ensures { result.program ≡ Some loose.value }
    {
        let Loose { at, alloc } = loose;
        Kernel {
            at: at as *mut u8,
            alloc,
        }
    }

    /// Gives the block back.
    pub fn freed(self) -> Loose<Shared, Global>
        requires { is_some self.program ≡ true }
        ensures { Some result.value ≡ self.program }
    {
        let Kernel { at, alloc } = self;
        Loose {
            at: at as *mut Shared,
            alloc,
        }
    }

    /// Leaves nothing.
    pub fn gone(self) -> Global
        requires { is_some self.program ≡ false }
    {
        let Kernel { at: _, alloc } = self;
        alloc
    }
}

/// By its block, which no other kernel has.
unsafe impl Send for Kernel {}
