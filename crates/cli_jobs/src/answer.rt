//! The answer of a run: what it came to, and the cells that are asked for.

use crate::data::{keep_dumps, print_rows};
use crate::halt::Halt;
use crate::job::Job;
use cli_words::{Beside, CellWord, Status};
use std::io;
use std::io::Write;
use store::{Finished, Memory};

/// The first lines of the answer of a run that has ended.
pub fn print_result<W: Write>(
    returned: i64,
    instructions: u64,
    peak: u64,
    output: &mut W,
) -> io::Result<()> {
    writeln!(
        output,
        "result {returned}\ninstructions {instructions}\npeak {peak}"
    )
}

/// The answer of a run that has ended.
pub fn print_finished<W: Write>(
    job: &Job<'_>,
    finished: &Finished,
    output: &mut W,
    beside: &mut Beside,
) -> Result<Status, Halt> {
    let instructions = finished.instructions;
    beside.times.instructions = instructions;
    print_result(finished.result, instructions, finished.peak, output)?;
    print_memory(job, &finished.memory, output, beside)
}

/// Prints the cells that are asked for, each on a line.
fn print_cells<W: Write>(memory: &Memory, cells: &[CellWord], output: &mut W) -> io::Result<()> {
    for cell in cells {
        if let Some(value) = memory.get_global(cell.name.as_str(), cell.index) {
            writeln!(output, "@{}:{} {value}", cell.name, cell.index)?;
        }
    }
    Ok(())
}

/// Prints the cells that are asked for, and keeps the globals that go to files.
pub fn print_memory<W: Write>(
    job: &Job<'_>,
    memory: &Memory,
    output: &mut W,
    beside: &mut Beside,
) -> Result<Status, Halt> {
    print_cells(memory, job.request.show.as_slice(), output)?;
    print_rows(memory, job.request.data.rows.as_slice(), output)?;
    keep_dumps(job, memory, beside)?;
    Ok(Status::Done)
}
