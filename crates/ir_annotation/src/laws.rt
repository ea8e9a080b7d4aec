//! Laws of reading and spelling forms: a spelled form is read back, and one that is read is canonical.

ghost use Rattle.std.specs.Prelude.{◌≡◌, ℕ, Bool, true, List, Ok};
ghost use Rattle.syntax.specs.declared.annotation.Form.{Form};
ghost use Rattle.ir_annotation.specs.declared.limits.Limited.{Limited};
ghost use Rattle.ir_annotation.specs.Limits.{within};
ghost use Rattle.ir_annotation.specs.Forms.{form_of};
ghost use Rattle.ir_annotation.specs.Spelling.{form_text};
ghost use Rattle.ir_annotation.specs.Canonical.{IsCanonical};

/// The canonical spelling of a form whose terms rise, and which is within its limits, is read back as the same form.
pub fn spelled_form_is_read_back()
    ensures { (f : Form) → IsCanonical f → form_of (form_text f) ≡ Ok (within f) }
{}

/// A form that is read and within its limits has terms that rise by the bytes of their names, with no coefficient 0.
pub fn read_form_is_canonical()
    ensures { (word : List ℕ) (f : Limited Form) → form_of word ≡ Ok f → f.is_within_limits ≡ true → IsCanonical f.value }
{}
