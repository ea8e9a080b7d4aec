//! Lists, names and the want of memory, as all layers keep them: contracts see a [`Seq`] as its list of elements and a [`Name`]
//! as its bytes. A [`TextBuffer`] and a [`ListBuffer`] are written into piece by piece, and say at their end whether memory was refused.
#![tactic(auto)]

mod list;
mod memory;
mod name;
mod seq;
mod text;

pub use list::ListBuffer;
pub use memory::OutOfMemory;
pub use name::Name;
pub use seq::Seq;
pub use text::TextBuffer;
