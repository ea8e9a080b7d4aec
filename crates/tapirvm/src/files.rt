//! The files that a request names, read and written, and what is said where that fails.

use cli_words::{Beside, Request, Status, read_data, read_file, write_bytes};
use std::io;
use std::io::ErrorKind;
use std::rt::Files;

/// The texts that a request names, each with why it could not be read.
#[derive(Drop)]
pub struct Texts {
    pub module: io::Result<Vec<u8>>,
    /// None where the verb takes no schedule.
    pub schedule: Option<io::Result<Vec<u8>>>,
}

/// Says on standard error what went wrong. Where that fails too the status alone tells.
pub fn complain(rt: &impl Eprint, subject: &str, error: &io::Error) {
    let _ = rt.eprint("error: ");
    let _ = rt.eprint(subject);
    let _ = rt.eprint(": ");
    let _ = rt.eprintln(error);
}

/// What came of a file, or why it could not be read or written; want of memory is no such reason, and handed on.
fn handled<T: Drop>(done: io::Result<T>) -> io::Result<Result<T, io::Error>> {
    match done {
        Err(error) if error.kind() == ErrorKind::OutOfMemory => Err(error),
        done => Ok(done),
    }
}

/// Reads the texts that a request names.
pub fn read_texts<R: AllocGlobal + Files>(rt: &R, request: &Request) -> io::Result<Texts> {
    let module = handled(read_file(rt, request.file.as_str()))?;
    let schedule = match &request.schedule {
        Some(file) => Some(handled(read_file(rt, file.as_str()))?),
        None => None,
    };
    Ok(Texts { module, schedule })
}

/// Reads the files that globals are filled from, and says which cannot be read.
pub fn read_load<R: AllocGlobal + Eprint + Files>(rt: &R, request: &mut Request) -> io::Result<()> {
    for word in &mut request.data.load {
        match handled(read_data(rt, word.file.as_str()))? {
            Ok(bytes) => word.bytes = Some(bytes),
            Err(error) => complain(rt, word.file.as_str(), &error),
        }
    }
    Ok(())
}

/// Writes a file; false where it cannot be written, which is said.
fn is_written<R: AllocGlobal + Eprint + Files>(
    rt: &R,
    word: &str,
    bytes: &[u8],
) -> io::Result<bool> {
    match handled(write_bytes(rt, word, bytes))? {
        Ok(()) => Ok(true),
        Err(error) => {
            complain(rt, word, &error);
            Ok(false)
        }
    }
}

/// Writes all files that are asked for, texts first, up to one that cannot be written.
pub fn write_files<R: AllocGlobal + Eprint + Files>(rt: &R, beside: &Beside) -> io::Result<Status> {
    for file in &beside.files {
        if !is_written(rt, file.word.as_str(), file.bytes.as_slice())? {
            return Ok(Status::Stream);
        }
    }
    for dump in &beside.dumps {
        if !is_written(rt, dump.word.as_str(), dump.bytes.as_slice())? {
            return Ok(Status::Stream);
        }
    }
    Ok(Status::Done)
}
