//! What the names of a module stand for: tables of names, operands, addresses, forms and zones with their names resolved, the faults of the
//! phase on names and types, and the globals that each function names, itself or by those that it calls.
//!
//! Each part is judged alone, by the rules 201, 202, 204 and 206; `types` above judges instructions, calls and functions, and names the
//! earliest fault of all.

mod address;
mod fault;
mod form;
mod item;
mod layout;
mod mention;
mod note;
mod operand;
mod reach;
mod scope;
mod table;

pub use address::{WholeObject, resolve_address, resolve_object};
pub use fault::{
    both, both_answers, downward_call, form_limit, joined, pointer_misuse, told, type_mismatch,
    unknown_name, unless, wrong_count,
};
pub use form::{AnnotationPlace, resolve_inequalities};
pub use item::{Item, Items, items_of};
pub use layout::Layout;
pub use mention::{Mentions, all_mentions};
pub use note::{
    resolve_all_pending, resolve_first_zones, resolve_left, resolve_measure, resolve_zones,
};
pub use operand::{
    fits_width, resolve_condition, resolve_label, resolve_operand, resolve_region, resolve_register,
};
pub use reach::{NamedGlobals, named_globals};
pub use refusal::{Broken as TypeFault, Refused};
pub use scope::{Holding, Named, Origin, Register, Scope};
pub use table::NameTable;
