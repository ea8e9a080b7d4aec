//! What each machine's frames have in common: the paths that name them, what they run and what they wait for; and the events of a
//! schedule.
#![tactic(auto)]

mod event;
mod frame;
mod path;

pub use event::Event;
pub use frame::{Role, Wait, block_at};
pub use path::Path;
