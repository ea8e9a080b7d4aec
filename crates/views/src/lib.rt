//! What people are shown of modules, and of a run's events. No machine is asked here: `cli_runs` runs a module and
//! tells its events.
//!
//! Modules:
//!
//! - `module`: the canonical text of a module, and what the verifier knows of each of its blocks (`printed`, `show`).
//!
//! One event:
//!
//! - `moment`: where an event found its task, what it came to, or why it was not enabled (`Moment`).
//! - `change`: what it set.
//! - `items`: what stands at a frame's place, and what its next step sets (`Plan`).
//! - `objects`: what a word means that is a pointer (`Objects`).
//! - `rounds`: when it could have happened at the earliest (`Rounds`).
//! - `trace`: an event as a line. `event`: an event as JSON, as `docs/FORMATS.md` tells.
//! - `names`: the names that a module's text gives to registers and objects. `spelling`: a text as JSON spells it.
//!
//! A run:
//!
//! - `teller`: is told each event, and hands it to all of these that are wanted (`Teller`). `told`: what is wanted, and
//!   what was told.
//! - `figures`: what each worker did, and how much could be done at once.
//! - `pictures`: who ran which task when, as a picture (`Scene` keeps it).
//! - `saved`: the events as a schedule (`Script`).
//! - `page`: the events as one page for a browser, that needs nothing else. `style`: how it looks. `script`: what it
//!   does.
#![tactic(auto)]

mod change;
mod event;
mod figures;
mod items;
mod module;
mod moment;
mod names;
mod objects;
mod page;
mod pictures;
mod rounds;
mod saved;
mod script;
mod spelling;
mod style;
mod teller;
mod told;
mod trace;

pub use change::{CellPlace, Change, Setting, Settings, Thing, Value, Written};
pub use figures::{Crew, Effort, Figures};
pub use items::{
    Plan, Target, Which, act_at, defined_by, is_plain_at, plan_of, push_parameters, registers_at,
};
pub use module::{printed, show};
pub use moment::{Act, Hindrance, Moment, Outcome, TaskName, TaskPlace};
pub use names::{Names, ThingName};
pub use objects::Objects;
pub use page::{MOST_EVENTS, Start};
pub use pictures::Scene;
pub use rounds::{Instant, Rounds, Tally, Timing};
pub use saved::Script;
pub use spelling::quoted;
pub use teller::{Teller, picture_of};
pub use told::{Told, Wanted, Whole, Words};
