//! The memory that a run begins with, filled from files and by options, and the events of its schedule.

ghost use Rattle.program.specs.declared.function.Program.{Program};
ghost use Rattle.std.specs.Prelude.{IfOk};
ghost use Rattle.store.specs.Made.{IsMadeFor};
ghost use Rattle.store.specs.Named.{HasGlobalCells};

use crate::data::{has_data, load_all};
use crate::halt::Halt;
use crate::job::Job;
use cli_words::{Beside, CellWord, Setting, Status};
use frame::Event;
use schedule_text::read_schedule;
use store::Memory;

/// The memory to begin with.
///
/// # Errors
///
/// An option names no cell of the module, the data of a file cannot be used, or memory was refused.
pub fn prepared(job: &Job<'_>, beside: &mut Beside) -> Result<Memory, Halt>
    ensures cells { IfOk result (λ memory. HasGlobalCells job.now.verified.now memory) }
    ensures made { IfOk result (λ memory. IsMadeFor job.now.verified.now memory) }
{
    let Ok(mut memory) = Memory::zeroed(job.alloc, job.verified) else {
        return Err(Halt::Memory);
    };
    let request = job.request;
    let shown = request.show.as_slice();
    if !has_cells(&memory, shown) || !has_data(&memory, &request.data) {
        return Err(Halt::Said(Status::Words));
    }
    load_all(job, &mut memory, beside)?;
    if set_cells(&mut memory, request.set.as_slice()) {
        Ok(memory)
    } else {
        Err(Halt::Said(Status::Words))
    }
}

/// The events of the schedule, and the memory to begin with.
pub fn scheduled(job: &Job<'_>, beside: &mut Beside) -> Result<(Vec<Event>, Memory), Halt>
    ensures { IfOk result (λ start. IsMadeFor job.now.verified.now start.1) }
{
    let Some(text) = job.schedule else {
        return Err(Halt::NoSchedule);
    };
    let events = read_schedule(job.alloc, text)?;
    let memory = prepared(job, beside)?;
    Ok((events, memory))
}

/// Sets a cell; false where it is not there.
fn set_cell(memory: &mut Memory, setting: &Setting) -> bool
    ensures cells { (program : Program) → HasGlobalCells program memory.old → HasGlobalCells program memory.new }
    ensures made { (program : Program) → IsMadeFor program memory.old → IsMadeFor program memory.new }
{
    memory.set_global(
        setting.cell.name.as_str(),
        setting.cell.index,
        setting.value,
    )
}

/// Sets cells in order; false where one is not there.
fn set_cells(memory: &mut Memory, settings: &[Setting]) -> bool
    ensures cells { (program : Program) → HasGlobalCells program memory.old → HasGlobalCells program memory.new }
    ensures made { (program : Program) → IsMadeFor program memory.old → IsMadeFor program memory.new }
{
    for setting in settings {
        if !set_cell(memory, setting) {
            return false;
        }
    }
    true
}

fn has_cells(memory: &Memory, cells: &[CellWord]) -> bool {
    for cell in cells {
        if memory.get_global(cell.name.as_str(), cell.index).is_none() {
            return false;
        }
    }
    true
}
