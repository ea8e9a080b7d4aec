//! Makes the graph of a program (control-flow graph), or names the rule of the lowest line that is broken.

ghost use Rattle.std.specs.Prelude.{◌≡◌, IfOk, IfErr};
ghost use Rattle.refusal.specs.Named.{NamesEarliest};
ghost use Rattle.cfg.specs.Rules.{IsGraphRight, IsGraphBroken};

use crate::GraphFault;
use crate::edges::function_graph;
use crate::judge::function_fault;
use crate::program_graph::Graph;
use crate::structure::FunctionGraph;
use lists::Seq;
use program::Program;
use refusal::{Broken, lower};
use std::alloc::Global;

/// The graph of a program (LLVM Language Reference, "phi" and "Terminator Instructions"). Of several faults that of
/// the lowest line is named, and there that of the lowest number.
pub fn graph(alloc: Global, program: Program) -> Result<Graph, GraphFault>
    ensures same { IfOk result (λ graph. graph.program ≡ program) }
    ensures right { IfOk result (λ graph. IsGraphRight program) }
    ensures fault { IfErr result (NamesEarliest (IsGraphBroken program)) }
{
    let mut functions: Vec<FunctionGraph> = Vec::new(alloc);
    let mut named: Option<Broken> = None;
    for function in program.functions.as_slice() {
        let made = function_graph(alloc, function)?;
        let broken = function_fault(alloc, function, made.blocks.as_slice())?;
        named = lower(named, broken);
        functions.push(made)?;
    }
    match named {
        Some(broken) => Err(broken.into()),
        None => Ok(Graph {
            program,
            functions: Seq::from_vec(functions),
        }),
    }
}
