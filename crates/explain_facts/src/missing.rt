//! What is missing of numbers, from fault to fault: a fault that would be none with what earlier ones lack may follow from those.

use crate::gap::{facts_with, is_shown, number_of_registers};
use crate::known::Known;
use crate::unmet::Unmet;
use linear::{Fact, Form};

/// How many forms of a function are kept: what is asked of them takes time for each.
const MOST_KEPT: usize = 16;

/// What is not shown in a function, of the faults that do not follow from others.
#[derive(Drop)]
pub struct Missing {
    pub function: usize,
    pub forms: Vec<Fact>,
}

impl Missing {
    /// Whether the form would be shown if what is missing were known. (What contradicts the facts shows all, so it says nothing.)
    fn shows(&self, known: Known<'_>, form: &Form) -> bool {
        if self.forms.is_empty() {
            return false;
        }
        let means = known.means;
        let more = means.items(facts_with(means.alloc, known.facts, self.forms.as_slice()));
        let facts = more.as_slice();
        !is_shown(means, facts, &Form::from_constant(means.alloc, -1))
            && is_shown(means, facts, form)
    }

    /// Whether a fault may follow from what is missing before it. If it does not, what it lacks is missing too. Of several choices none is.
    pub(crate) fn take(&mut self, known: Known<'_>, unmet: &Unmet) -> bool {
        let means = known.means;
        if self.function != unmet.site.function {
            self.function = unmet.site.function;
            self.forms = Vec::new(means.alloc);
        }
        let [only] = unmet.choices.as_slice() else {
            return false;
        };
        let Some(form) = means.form(only) else {
            return false;
        };
        if self.shows(known, &form) {
            return true;
        }
        if number_of_registers(&form) > 0 && self.forms.len() < MOST_KEPT {
            means.push(&mut self.forms, Fact { form });
        }
        false
    }
}
