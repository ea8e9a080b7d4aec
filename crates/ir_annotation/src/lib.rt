//! Annotations: the words behind `;!` on a line of a module's text, read and spelled.
//!
//! [`read_annotation`] reads the words of one line; the `push_` functions write the words of one line in their canonical spelling.
//! Where an annotation may stand, and how often, is judged by the layer above.
//!
//! - Read: `keywords`, `lines`, `words`, `forms`, `sums`, within `limits`. `meaning`: what was read (`Annotation`).
//! - Printed: `pieces`, `spelling`. Both: `laws`, `line_laws` (what is printed is read back).
#![tactic(auto)]

mod forms;
mod keywords;
pub mod laws;
mod limits;
pub mod line_laws;
mod lines;
mod meaning;
mod pieces;
mod spelling;
mod sums;
mod words;

pub use lines::read_annotation;
pub use meaning::{Annotation, AnnotationLine};
pub use pieces::mode_text;
pub use refusal::Refused as AnnotationFault;
pub use spelling::{
    push_budget, push_foot, push_form, push_inequality, push_left, push_measure, push_pending,
    push_zone, sign_text,
};
