//! The files that words name.
use crate::is_raw;
use std::alloc::Global;
use std::fs::File;
use std::io::{BufRead, BufReader, ErrorKind, Read};
use std::rt::Files;
use std::{fs, io};

/// The most bytes that a module and a schedule may have.
const MOST: u64 = 1_048_576;

/// The most bytes that data may have: room for the longest numbers of all cells of a module, with white space between.
const MOST_DATA: u64 = 33_554_432;

fn read_to_limit<R: BufRead>(reader: &mut R, text: &mut Vec<u8>) -> io::Result<()> {
    reader.by_ref().take(MOST + 1).read_to_end(text)?;
    let is_over = text.len() as u64 > MOST;
    if is_over && !text.as_slice().ends_with(b"\n") {
        reader.by_ref().take(MOST).read_until(b'\n', text)?;
    }
    Ok(())
}

/// Reads a text up to one byte past its limit, and then what is left of the line, since a lower fault of that line comes first;
/// of an endless line no more than as many bytes again.
fn read_text<R: Read + Drop>(alloc: Global, reader: R) -> io::Result<Vec<u8>> {
    let mut reader = BufReader::new(alloc, reader)?;
    let mut text = Vec::new(alloc);
    read_to_limit(&mut reader, &mut text)?;
    Ok(text)
}

/// The path that a word names. Files are opened by paths of UTF-8 alone: the standard library has no other here.
fn path_of(word: &str) -> io::Result<&str> {
    if is_raw(word) {
        return Err(io::Error::from(ErrorKind::InvalidFilename));
    }
    Ok(word)
}

/// Reads the text of the file that a word names.
pub fn read_file<R: AllocGlobal + Files>(rt: &R, word: &str) -> io::Result<Vec<u8>> {
    read_text(rt.alloc(), File::open(rt, path_of(word)?)?)
}

/// Reads data; an error where it is too much.
fn read_data_of<R: Read + Drop>(alloc: Global, reader: R) -> io::Result<Vec<u8>> {
    let mut reader = BufReader::new(alloc, reader)?;
    let mut bytes = Vec::new(alloc);
    reader.by_ref().take(MOST_DATA + 1).read_to_end(&mut bytes)?;
    if bytes.len() as u64 > MOST_DATA {
        return Err(io::Error::from(ErrorKind::FileTooLarge));
    }
    Ok(bytes)
}

/// Reads the data of the file that a word names; an error where it holds too much.
pub fn read_data<R: AllocGlobal + Files>(rt: &R, word: &str) -> io::Result<Vec<u8>> {
    read_data_of(rt.alloc(), File::open(rt, path_of(word)?)?)
}

/// Writes bytes to the file that a word names.
pub fn write_bytes<R: AllocGlobal + Files>(rt: &R, word: &str, bytes: &[u8]) -> io::Result<()> {
    fs::write(rt, path_of(word)?, bytes)
}
