//! Data that comes from files into globals before a run, and goes to files after it.

ghost use Rattle.program.specs.declared.function.Program.{Program};
ghost use Rattle.store.specs.Made.{IsMadeFor};
ghost use Rattle.store.specs.Named.{HasGlobalCells};

use crate::halt::Halt;
use crate::job::Job;
use cli_words::{
    Beside, DataFault, DataWord, DataWords, RowWord, Status, print_numbers, read_numbers,
    read_words, write_words,
};
use lists::ListBuffer;
use program::GlobalId;
use std::alloc::{AllocError, Global};
use std::io;
use std::io::Write;
use store::Memory;

/// Whether the module has the globals and the cells that the options name.
pub(crate) fn has_data(memory: &Memory, data: &DataWords) -> bool {
    for row in &data.rows {
        match memory.place_of(row.name.as_str()) {
            Some((_, cells)) if row.first.saturating_add(row.count) <= cells => {}
            _ => return false,
        }
    }
    has_globals(memory, data.load.as_slice()) && has_globals(memory, data.dump.as_slice())
}

fn has_globals(memory: &Memory, words: &[DataWord]) -> bool {
    for word in words {
        if memory.place_of(word.name.as_str()).is_none() {
            return false;
        }
    }
    true
}

/// The numbers of a file of words; none where bytes are left over, which is said.
fn words_in(
    alloc: Global,
    file: &str,
    bytes: &[u8],
    beside: &mut Beside,
) -> Result<Option<Vec<i64>>, AllocError> {
    if bytes.len() % 8 != 0 {
        let error = beside.error_word();
        let length = bytes.len();
        writeln!(
            beside,
            "{error} {file} has {length} bytes, and a number has eight"
        );
    }
    read_words(alloc, bytes)
}

/// The numbers of a file of decimal numbers; none where a word is none, which is said.
fn decimals_in(
    alloc: Global,
    file: &str,
    bytes: &[u8],
    beside: &mut Beside,
) -> Result<Option<Vec<i64>>, AllocError> {
    match read_numbers(alloc, bytes) {
        Ok(numbers) => Ok(Some(numbers)),
        Err(DataFault::NoNumber { line, column }) => {
            let error = beside.error_word();
            writeln!(
                beside,
                "{file}:{line}:{column}: {error} this is no decimal number of 64 bits"
            );
            Ok(None)
        }
        Err(DataFault::Memory) => Err(AllocError),
    }
}

/// The numbers of a global's file; none where it is none, which is said.
fn numbers_in(
    job: &Job<'_>,
    word: &DataWord,
    bytes: &[u8],
    beside: &mut Beside,
) -> Result<Option<Vec<i64>>, AllocError> {
    let file = word.file.as_str();
    if job.request.data.is_raw {
        words_in(job.alloc, file, bytes, beside)
    } else {
        decimals_in(job.alloc, file, bytes, beside)
    }
}

/// The numbers for a global of so many cells; none where its file has others, which is said.
fn numbers_for(
    job: &Job<'_>,
    word: &DataWord,
    bytes: &[u8],
    cells: u64,
    beside: &mut Beside,
) -> Result<Option<Vec<i64>>, AllocError> {
    match numbers_in(job, word, bytes, beside)? {
        Some(numbers) if numbers.len() as u64 != cells => {
            let error = beside.error_word();
            let file = word.file.as_str();
            let name = word.name.as_str();
            let count = numbers.len();
            writeln!(
                beside,
                "{error} the numbers in {file} are {count}, and the cells of @{name} are {cells}"
            );
            Ok(None)
        }
        numbers => Ok(numbers),
    }
}

/// Gives a cell a number, where it is there.
fn put(memory: &mut Memory, name: &str, index: usize, value: i64)
    ensures cells { (program : Program) → HasGlobalCells program memory.old → HasGlobalCells program memory.new }
    ensures made { (program : Program) → IsMadeFor program memory.old → IsMadeFor program memory.new }
{
    let _is_there = memory.set_global(name, index as u64, value);
}

/// Gives the cells of a global these numbers.
fn fill(memory: &mut Memory, name: &str, numbers: &[i64])
    ensures cells { (program : Program) → HasGlobalCells program memory.old → HasGlobalCells program memory.new }
    ensures made { (program : Program) → IsMadeFor program memory.old → IsMadeFor program memory.new }
{
    for index in 0..numbers.len() {
        put(memory, name, index, numbers[index]);
    }
}

/// Fills a global from its file.
fn load(
    job: &Job<'_>,
    word: &DataWord,
    memory: &mut Memory,
    beside: &mut Beside,
) -> Result<(), Halt>
    ensures cells { (program : Program) → HasGlobalCells program memory.old → HasGlobalCells program memory.new }
    ensures made { (program : Program) → IsMadeFor program memory.old → IsMadeFor program memory.new }
{
    let name = word.name.as_str();
    let (Some(bytes), Some((_, cells))) = (&word.bytes, memory.place_of(name)) else {
        return Err(Halt::Said(Status::Unreadable));
    };
    let Some(numbers) = numbers_for(job, word, bytes.as_slice(), cells, beside)? else {
        return Err(Halt::Said(Status::Unreadable));
    };
    fill(memory, name, numbers.as_slice());
    Ok(())
}

/// Fills the globals that come from files.
pub(crate) fn load_all(job: &Job<'_>, memory: &mut Memory, beside: &mut Beside) -> Result<(), Halt>
    ensures cells { (program : Program) → HasGlobalCells program memory.old → HasGlobalCells program memory.new }
    ensures made { (program : Program) → IsMadeFor program memory.old → IsMadeFor program memory.new }
{
    for word in &job.request.data.load {
        load(job, word, memory, beside)?;
    }
    Ok(())
}

/// Prints the rows that are asked for, each on a line.
pub(crate) fn print_rows<W: Write>(
    memory: &Memory,
    rows: &[RowWord],
    output: &mut W,
) -> io::Result<()> {
    for row in rows {
        if let Some((global, _)) = memory.place_of(row.name.as_str()) {
            print_row(memory, GlobalId(global), row, output)?;
        }
    }
    Ok(())
}

fn print_row<W: Write>(
    memory: &Memory,
    global: GlobalId,
    row: &RowWord,
    output: &mut W,
) -> io::Result<()> {
    write!(output, "@{}:{}", row.name, row.first)?;
    for index in row.first..row.first.saturating_add(row.count) {
        if let Some(value) = memory.cell(global, index) {
            write!(output, " {value}")?;
        }
    }
    output.write_all(b"\n")
}

/// The numbers of a global.
fn numbers_of(alloc: Global, memory: &Memory, name: &str) -> Result<Vec<i64>, AllocError> {
    let mut numbers = ListBuffer::new(alloc);
    if let Some((global, cells)) = memory.place_of(name) {
        for index in 0..cells {
            numbers.push(memory.cell(GlobalId(global), index).unwrap_or(0));
        }
    }
    numbers.finish()
}

/// The numbers of a global, as its file has them.
fn dump_of(job: &Job<'_>, memory: &Memory, name: &str) -> Result<Vec<u8>, AllocError> {
    let numbers = numbers_of(job.alloc, memory, name)?;
    if job.request.data.is_raw {
        return write_words(job.alloc, numbers.as_slice());
    }
    Ok(print_numbers(job.alloc, numbers.as_slice())?.into_bytes())
}

/// Keeps the globals that go to files.
pub(crate) fn keep_dumps(
    job: &Job<'_>,
    memory: &Memory,
    beside: &mut Beside,
) -> Result<(), AllocError> {
    for word in &job.request.data.dump {
        let bytes = dump_of(job, memory, word.name.as_str())?;
        beside.keep_dump(word.file.as_str(), bytes);
    }
    Ok(())
}
