//! A program whose names and types are right, with what contracts know of it.

ghost use Rattle.types.specs.Meaning.{IsMeant};

use program::Program;

/// A program whose names and types are right: a module means it, and breaks none of the rules 201 to 206.
#[derive(Drop)]
pub struct Typed {
    pub program: Program,
    pub ghost meant: { ∥ IsMeant program ∥₁ },
}
