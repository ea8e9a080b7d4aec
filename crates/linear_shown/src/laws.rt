//! Laws of what is shown: it is true where the facts are, and the test answers just that (soundness, exactness).

ghost use Rattle.std.specs.Prelude.{ℕ, ℤ, List};
ghost use Rattle.std.specs.Bool.{Decides};
ghost use Rattle.linear.specs.declared.form.Fact.{Fact};
ghost use Rattle.linear.specs.Forms.{Same, Holds};
ghost use Rattle.linear.specs.Terms.{Combination};
ghost use Rattle.linear_shown.specs.Shown.{IsShown, AllHold, SameFacts};
ghost use Rattle.linear_shown.specs.Tested.{is_shown};

/// What is shown by true facts is true.
pub fn shown_is_true()
    ensures { (facts : List Fact) (e : Combination) → IsShown facts e → (v : ℕ → ℤ) → AllHold v facts → Holds v e }
{}

/// The test of what is shown answers just that.
pub fn test_is_exact()
    ensures { (facts : List Fact) (e : Combination) → Decides (is_shown facts e) (IsShown facts e) }
{}

/// What is shown depends on coefficients and constants alone.
pub fn shown_respects_same()
    ensures { (facts others : List Fact) (e f : Combination) → Same e f → SameFacts facts others → IsShown facts e → IsShown others f }
{}
