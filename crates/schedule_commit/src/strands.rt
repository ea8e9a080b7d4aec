//! A worker's strand, done at once as steps of the worker whose frame it began with: its frames are made
//! all or none, and then base, cells and counts are written, which cannot fail.

mod committing;
mod fitting;
mod linking;
mod taking;

pub use fitting::{fitting_base, has_no_child};
pub use taking::publish;
