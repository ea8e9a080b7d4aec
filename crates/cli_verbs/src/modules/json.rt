//! Answers about a module as JSON, for editors and services: an object a line, as `docs/FORMATS.md` tells.
//!
//! What a verdict or an explanation says is what the words of `verify`, `explain` and `show` say; here it has names.

mod explanation;
mod fault;
mod known;
mod list;

pub(crate) use explanation::{faults_json, remarks_json};
pub(crate) use fault::refusal_json;
pub(crate) use known::known_json;
pub(crate) use list::push_separator;
