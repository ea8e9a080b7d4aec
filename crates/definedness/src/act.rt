//! What a block does with a number: it needs it to be defined, or defines it (use and def).

ghost use Rattle.std.specs.Prelude.{◌≡◌};
ghost use Rattle.definedness.specs.Acts.{given};

use lists::Seq;

/// What a block does with registers, or with allocas, each by its number.
#[derive(Clone, Copy)]
pub enum Act {
    /// Must be defined where this stands; the line is that of the use.
    Needs { number: usize, line: u32 },
    /// Is defined from here on.
    Gives { number: usize },
}

impl Act {
    /// What it defines.
    pub fn definition(&self) -> Option<usize>
        ensures { result ≡ given self.now }
    {
        match self {
            Act::Gives { number } => Some(*number),
            Act::Needs { .. } => None,
        }
    }
}

/// What a block does, in the order in which it runs.
#[derive(Drop)]
pub struct BlockActs {
    pub acts: Seq<Act>,
}
