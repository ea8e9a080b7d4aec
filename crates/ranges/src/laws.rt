//! Laws of facts: what true facts show is true, and met obligations hold (soundness).

ghost use Rattle.std.specs.Prelude.{◌≡◌, ℕ, ℤ, List, All, Any, true};
ghost use Rattle.linear.specs.declared.form.Fact.{Fact};
ghost use Rattle.linear_shown.specs.Shown.{AllHold};
ghost use Rattle.ranges_owed.specs.declared.sum.Sum.{Sum};
ghost use Rattle.ranges_owed.specs.declared.sum.Obligation.{Obligation};
ghost use Rattle.ranges.specs.Sums.{facts_of, shows, is_met};
ghost use Rattle.ranges.specs.Truth.{IsTrueAt};

/// What true facts show is true.
pub fn shown_sums_are_true()
    ensures { (facts : List Fact) (s : Sum) → shows facts s ≡ true → (v : ℕ → ℤ) → AllHold v facts → IsTrueAt v s }
{}

/// Where true facts meet an obligation, one of its choices is true.
pub fn met_obligations_are_true()
    ensures { (facts : List Fact) (o : Obligation) → is_met facts o ≡ true → (v : ℕ → ℤ) → AllHold v facts → Any (IsTrueAt v) o.choices }
{}

/// The facts of true sums are true.
pub fn facts_of_true_sums_are_true()
    ensures { (sums : List Sum) (v : ℕ → ℤ) → All (IsTrueAt v) sums → AllHold v (facts_of sums) }
{}
