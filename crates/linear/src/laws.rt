//! Laws of the values of forms: sums, multiples and differences.

ghost use Rattle.std.specs.Prelude.{◌≡◌, ℕ, ℤ, negsuc, ◌+ℤ◌, ◌*ℤ◌};
ghost use Rattle.linear.specs.Forms.{Same, value, plus, minus, scaled, put};
ghost use Rattle.linear.specs.Terms.{Combination};

/// Forms with the same coefficients and constant have the same value.
pub fn same_value()
    ensures { (v : ℕ → ℤ) (e f : Combination) → Same e f → value v e ≡ value v f }
{}

/// The value of a sum is the sum of the values.
pub fn sum_value()
    ensures { (v : ℕ → ℤ) (e f : Combination) → value v (plus e f) ≡ value v e +ℤ value v f }
{}

/// The value of a multiple is the multiple of the value.
pub fn multiple_value()
    ensures { (v : ℕ → ℤ) (k : ℤ) (e : Combination) → value v (scaled k e) ≡ k *ℤ value v e }
{}

/// The value of a difference is the difference of the values.
pub fn difference_value()
    ensures { (v : ℕ → ℤ) (e f : Combination) → value v (minus e f) ≡ value v e +ℤ (negsuc 0 *ℤ value v f) }
{}

/// The value of a form whose registers are replaced is its value where each register has the value of what replaces it.
pub fn put_value()
    ensures { (v : ℕ → ℤ) (σ : ℕ → Combination) (e : Combination) → value v (put σ e) ≡ value (λ r. value v (σ r)) e }
{}
