//! The ledger of one run, with where the run begins, as contracts see it.

ghost use Rattle.std.specs.Prelude.{ℕ, ℤ, List, [], replicate};
ghost use Rattle.program.specs.declared.function.Program.{Program};
ghost use Rattle.schedule_core.specs.store.Cells.{NamedCells};

use std::marker::Brand;
use std::sync::ledger::Ledger;

/// The ledger of one run, with where the run begins: what is made for it is of this run.
pub trait Bench: Ledger {
    /// The module.
    ghost code: { Program };
    /// The arguments of `main`.
    ghost arguments: { List ℤ };
    /// The memory that the run begins with.
    ghost memory: { List NamedCells };
    /// How many workers the run has.
    ghost crew: { ℕ };
}

impl Bench for Brand {
    ghost code = { record { globals = []; functions = []; main = record { 0 = 0 } } };

    ghost arguments = { [] };

    ghost memory = { [] };

    ghost crew = { 0 };
}
