//! A program with the edges of its functions, of which contracts know that it keeps the rules 211 to 213.

ghost use Rattle.std.specs.Prelude.{◌≡◌};
ghost use Rattle.cfg.specs.Edges.{graphs_of};
ghost use Rattle.cfg.specs.Rules.{IsGraphRight};

use crate::structure::FunctionGraph;
use lists::Seq;
use program::Program;

/// A program with the edges of its functions, which breaks none of the rules 211 to 213.
pub struct Graph {
    pub program: Program,
    pub functions: Seq<FunctionGraph>,
    pub ghost edges: { functions ≡ graphs_of program },
    pub ghost right: { ∥ IsGraphRight program ∥₁ },
}

/// Written out, so that no crate above proves it anew.
impl Drop for Graph {
    fn drop(self) {
        let Graph {
            program: _,
            functions: _,
        } = self;
    }
}
