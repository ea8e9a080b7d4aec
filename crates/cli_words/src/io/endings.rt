//! What is said of streams and memory, of files that cannot be read, and of a module that is refused.

use crate::bytes_of;
use crate::io::beside::Beside;
use crate::io::status::Status;
use refusal::Refused;
use std::alloc::Global;
use std::io;
use std::io::{ErrorKind, Write};

/// Says that memory was refused.
pub fn stop_for_memory<W: Write>(output: &mut W) -> io::Result<Status> {
    output.write_all(b"stopped 803\n")?;
    Ok(Status::Stopped)
}

/// The status of a request, once it is said that memory was refused, or, where there is memory to say it, which stream failed.
pub fn ended<W: Write>(
    answered: io::Result<Status>,
    output: &mut W,
    beside: &mut Beside,
) -> Status {
    match answered {
        Ok(status) if !beside.is_refused() => return status,
        Err(error) if error.kind() != ErrorKind::OutOfMemory => note_failed(&error, beside),
        _ => return stop_for_memory(output).unwrap_or(Status::Stream),
    }
    Status::Stream
}

/// Says which stream failed. Whoever broke the pipe wants no more of the output.
fn note_failed(error: &io::Error, beside: &mut Beside) {
    if error.kind() != ErrorKind::BrokenPipe {
        let word = beside.error_word();
        writeln!(beside, "{word} standard input or output: {error}");
    }
}

/// Says that a file could not be read, by the very bytes of its word.
pub fn print_unreadable<W: Write>(alloc: Global, word: &str, output: &mut W) -> io::Result<Status> {
    let path = bytes_of(alloc, word)?;
    output.write_all(b"unreadable ")?;
    output.write_all(path.as_slice())?;
    output.write_all(b"\n")?;
    Ok(Status::Unreadable)
}

/// Says why a module is refused, or that memory was.
pub fn print_refused<W: Write>(refused: &Refused, output: &mut W) -> io::Result<Status> {
    match refused {
        Refused::Fault { number, line } => {
            writeln!(output, "refused {number} line {line}")?;
            Ok(Status::Refused)
        }
        Refused::Memory => stop_for_memory(output),
    }
}
