//! A run as a picture: workers down, rounds across (timeline, Gantt chart).
//!
//! A [`Scene`] is told a run's events, one after another, each with its round, and keeps who ran which task when; [`picture`] draws it.

mod colour;
mod grid;
mod legend;
mod scene;
mod summary;
mod svg;

pub use scene::Scene;
pub(crate) use svg::picture;
