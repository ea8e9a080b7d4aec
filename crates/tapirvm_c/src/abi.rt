//! The version of the calls in C, which hosts of a shared library compare with their header's (ABI).

ghost use Rattle.std.specs.Prelude.{◌≡◌, codes};
ghost use Rattle.kernel_calls.specs.Words.{StandsIn};

use kernel_calls::put;

/// A call that is changed or taken away raises it.
const MAJOR: u32 = 3;

/// A call that is added raises it.
const MINOR: u32 = 0;

/// Both as text.
const VERSION: &[u8] = b"3.0";

/// The major number of the version of the header that the library meets: hosts of a shared library compare it with their own.
#[unsafe(no_mangle)]
pub extern "C" fn tapirvm_abi() -> u32
    ensures { result ≡ 3 }
{
    MAJOR
}

/// The minor number of that version: a host's own is not above it.
#[unsafe(no_mangle)]
pub extern "C" fn tapirvm_minor() -> u32
    ensures { result ≡ 0 }
{
    MINOR
}

/// Writes the library's version.
#[unsafe(no_mangle)]
pub extern "C" fn tapirvm_version(out: &mut [u8], needed: &mut usize)
    ensures { StandsIn out.old (codes "3.0") out.new needed.new }
{
    put(VERSION, out, needed);
}
