//! The ranges of parameters that the facts about one alone allow (intervals).

use program::{Fact, RegisterId};

/// Whole numbers from one to another, both of them in it.
#[derive(Clone, Copy)]
pub(crate) struct Range {
    pub low: i128,
    pub high: i128,
}

impl Range {
    /// The range in which `coefficient * x + constant >= 0` too.
    fn narrowed(self, coefficient: i64, constant: i128) -> Range {
        let size = i128::from(coefficient.unsigned_abs());
        let Some(floor) = constant.checked_div_euclid(size) else {
            return self;
        };
        if coefficient > 0 {
            Range {
                low: self.low.max(0i128.saturating_sub(floor)),
                high: self.high,
            }
        } else {
            Range {
                low: self.low,
                high: self.high.min(floor),
            }
        }
    }
}

/// The numbers that a register of type `i64` may hold by the facts that name it alone. The range is empty where `high` is below `low`.
pub(crate) fn range_of(register: RegisterId, facts: &[Fact]) -> Range {
    let mut range = Range {
        low: i128::from(i64::MIN),
        high: i128::from(i64::MAX),
    };
    for fact in facts {
        match fact.form.terms.as_slice() {
            [term] if term.register == register => {
                range = range.narrowed(term.coefficient, fact.form.constant);
            }
            _ => {}
        }
    }
    range
}
