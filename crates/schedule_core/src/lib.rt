//! Runs by work stealing, one event at a time: a worker's step, which is one instruction of its task, or a steal
//! (Blumofe and Leiserson, "Scheduling multithreaded computations by work stealing"; Tapir). A list of events is a
//! schedule, and a run is a function of it.
//!
//! The run:
//!
//! - `machine`: a run between two events (`Machine`): `start`, `apply`, and how far it has come.
//! - `schedule`: a whole schedule (`replay`). `events`: how a run begins, and one event after another.
//! - `stage`: a run of a module, with what its steps read. `parked`: a machine at rest, which refers to no module.
//!
//! What workers do apart from it:
//!
//! - `strands`: a worker's strand is loaded, goes on, and is published (`load_strand`, `advance_strand`, `publish`).
//! - `absorb`: the same of a frame strand.
//! - `lending`: the cells that a strand's frames have. `shared_places`: where the module's objects begin, for all who
//!   run it.
//! - `ready`: the tickets of the ready tasks that a publication leaves. `parent`: the ready task that a detach leaves.
//!
//! What is seen of it:
//!
//! - `view`: a task by its path or its worker. `task`: how it stands, and on which line.
//! - `stands`: whether some worker's next instruction stands on a line.
//! - `frames`: live frames one by one, and cells by their addresses. `globals`: what the globals hold.
//!
//! Laws, without code to run:
//!
//! - `laws`: what holds of every schedule.
//! - `laws_workers`: what the workers' machine rests on is true of each accepted module, so it makes no test.
#![tactic(auto)]

mod absorb;
mod events;
mod frames;
mod globals;
mod laws;
pub mod laws_workers;
mod lending;
mod machine;
mod parent;
mod parked;
mod ready;
mod schedule;
mod shared_places;
mod stage;
mod stands;
mod strands;
mod task;
mod view;

pub use absorb::steps_of;
pub use frame::Event;
pub use frame_engine::{Frame, Item, Places};
pub use frames::FrameView;
pub use laws::ended_enables_nothing;
pub use machine::Machine;
pub use parked::Parked;
pub use ready::Ticket;
pub use schedule::replay;
pub use schedule_commit::{CodePlace, FrameStrand, FrameStrandPause, Strand, StrandPause};
pub use serial_machine::{Decoded, Finished, Memory, RunFault, Verified, unmet_requirement};
pub use shared_places::SharedPlaces;
pub use stage::Stage;
pub use strands::{
    advance_strand, blank_strand, fill_strand, fill_strand_ahead, has_ready_below, made_on_top,
    next_item, next_place, settle_strand,
};
pub use task::{Status, TaskView};
