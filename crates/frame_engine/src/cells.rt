//! The trait of memory: what loads, stores and adds ask of cells, and why one cannot be done.

ghost use Rattle.std.specs.Prelude.{◌≡◌, ◌≢◌, ℤ, Bool, IsTrue, OnOk, OnErr, IfOk, IfErr};
ghost use Rattle.semantics.specs.Arithmetic.{cell_sum};
ghost use Rattle.frame_engine.specs.Access.{Access, Loads, Stores, Adds};

/// Cells at addresses, or as many of them as are at hand. What a cell may hold is all that is known of it here: of cells that
/// are elsewhere, anything.
pub trait Cells {
    type Stop;

    /// There is such a cell.
    ghost reaches: { Self → ℤ → Bool };

    /// As far as these cells tell, the cell may hold the number.
    ghost holds: { Self → ℤ → ℤ → Type 0 };

    /// The access leads from these cells to those.
    ghost does: { Self → Access → Self → Type 0 };

    /// The access cannot be done, for this reason.
    ghost refuses: { Self → Access → Self.Stop → Type 0 };

    fn load(&mut self, at: i64) -> Result<i64, Self::Stop>
        requires { IsTrue (reaches self.old at) }
        ensures value { IfOk result (λ n. (z : ℤ) → holds self.old at z → n ≡ z) }
        ensures kept { (a z : ℤ) → holds self.old a z → holds self.new a z }
        ensures reaches { (a : ℤ) → IsTrue (reaches self.old a) → IsTrue (reaches self.new a) }
        ensures does { OnOk result (does self.old (Loads at) self.new) }
        ensures refused { IfErr result (λ stop. refuses self.old (Loads at) stop) }
        ensures unchanged { OnErr result (self.new ≡ self.old) };

    fn store(&mut self, at: i64, number: i64) -> Result<(), Self::Stop>
        requires { IsTrue (reaches self.old at) }
        ensures here { OnOk result (holds self.new at number) }
        ensures others { (a z : ℤ) → holds self.old a z → a ≢ at → holds self.new a z }
        ensures stopped { OnErr result ((a z : ℤ) → holds self.old a z → holds self.new a z) }
        ensures reaches { (a : ℤ) → IsTrue (reaches self.old a) → IsTrue (reaches self.new a) }
        ensures does { OnOk result (does self.old (Stores at number) self.new) }
        ensures refused { IfErr result (λ stop. refuses self.old (Stores at number) stop) }
        ensures unchanged { OnErr result (self.new ≡ self.old) };

    fn add(&mut self, at: i64, number: i64) -> Result<(), Self::Stop>
        requires { IsTrue (reaches self.old at) }
        ensures here { OnOk result ((z : ℤ) → holds self.old at z → holds self.new at (cell_sum z number)) }
        ensures others { (a z : ℤ) → holds self.old a z → a ≢ at → holds self.new a z }
        ensures stopped { OnErr result ((a z : ℤ) → holds self.old a z → holds self.new a z) }
        ensures reaches { (a : ℤ) → IsTrue (reaches self.old a) → IsTrue (reaches self.new a) }
        ensures does { OnOk result (does self.old (Adds at number) self.new) }
        ensures refused { IfErr result (λ stop. refuses self.old (Adds at number) stop) }
        ensures unchanged { OnErr result (self.new ≡ self.old) };
}
