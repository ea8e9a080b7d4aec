//! The modules of the cases, read from files and verified; and the want of memory.

use lists::OutOfMemory;
use std::hash::RandomState;
use std::io::ErrorKind;
use std::rt::Files;
use std::{fs, io};
use verifier::{Refused, Verified, verify};

/// The want of memory, as a fault of the program.
pub fn no_memory(_refused: OutOfMemory) -> io::Error {
    io::Error::from(ErrorKind::OutOfMemory)
}

/// The module of a file.
pub fn verified_file<R: AllocGlobal + Files>(
    rt: &R,
    state: RandomState,
    file: &str,
) -> io::Result<Verified> {
    let text = fs::read(rt, file)?;
    match verify(rt.alloc(), state, text.as_slice()) {
        Ok(verified) => Ok(verified),
        Err(Refused::Memory) => Err(no_memory(OutOfMemory)),
        Err(Refused::Fault { .. }) => Err(io::Error::other("a module that is refused")),
    }
}
