//! The facts that are known at a place, with an index of them if they are many, for questions.

ghost use Rattle.std.specs.Prelude.{◌≡◌, IsTrue, IfOk};
ghost use Rattle.linear_shown.specs.Index.{IsNegative};
ghost use Rattle.linear_shown.specs.Tested.{is_shown};

use crate::effort::OutOfEffort;
use crate::find::shown_by_index;
use crate::index::Layers;
use crate::show::shown;
use linear::{Fact, Form, side_of};
use std::marker::Model;

/// Facts, lent with an index of them all, if there is one. Contracts see the facts.
#[derive(Drop)]
pub struct Known<'a> {
    pub(crate) facts: &'a [Fact],
    pub(crate) layers: Layers<'a>,
    pub(crate) is_indexed: bool,
    /// Whether the facts are known to be consistent, where they are indexed.
    pub(crate) is_consistent: bool,
}

impl<'a> Model for Known<'a> {
    ghost use Rattle.std.specs.Prelude.{◌≡◌, true, List, suc, length};
    ghost use Rattle.linear.specs.declared.form.Fact.{Fact};
    ghost use Rattle.linear_shown.specs.Index.{IsBegun};

    ghost Value = { List Fact };

    ghost view = { λ k. k.facts.now };

    ghost invariant = { λ k. k.is_indexed ≡ true → IsBegun k.facts.now (suc (length k.facts.now)) k.layers.settled.now k.layers.recent.now k.is_consistent };
}

/// Whether the form is below 0 whatever its registers are, as it has no terms.
fn is_negative(form: &Form) -> bool
    ensures { IsTrue result → IsNegative form.now }
{
    let side = side_of(form);
    side.terms.is_empty() && side.constant < 0
}

impl<'a> Known<'a> {
    pub fn facts(&self) -> &'a [Fact]
        ensures { result.now ≡ self.now }
    {
        self.facts
    }

    /// Whether the facts show the form. Consistent facts show nothing below 0.
    pub fn shows(&self, form: &Form) -> bool
        ensures { result ≡ is_shown self.now form.now }
    {
        if !self.is_indexed {
            self.layers.effort.spend_question(side_of(form).terms.len());
            return shown(self.facts, form);
        }
        if self.is_consistent && is_negative(form) {
            return false;
        }
        self.layers.effort.spend_question(side_of(form).terms.len());
        shown_by_index(self.facts, self.layers, form)
    }

    /// Whether the facts show the form, unless the effort that is granted was spent before.
    pub fn ask(&self, form: &Form) -> Result<bool, OutOfEffort>
        ensures { IfOk result (λ b. b ≡ is_shown self.now form.now) }
    {
        if self.layers.effort.is_spent() {
            Err(OutOfEffort)
        } else {
            Ok(self.shows(form))
        }
    }
}
