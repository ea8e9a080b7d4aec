//! What is said of a block without a `left` line, and the line that would do: whether what one way leaves is enough for another, and
//! an upper bound of a form without some register (a register is eliminated by a fact).

use crate::cost::Doing;
use crate::gap::coefficient;
use crate::known::Known;
use crate::means::Means;
use crate::rounds::push_rounds;
use crate::scene::Scene;
use crate::spelling::{plural, push_form};
use crate::sums::{Counted, Share, amount};
use linear::{Fact, Form, RegisterId};
use lists::TextBuffer;
use program::{Function, Instruction, Left, Step};
use ranges::{Sum, start_facts};

/// A number that no coefficient of a form reaches: 2^24.
const FACTOR_LIMIT: u64 = 16_777_216;

/// The register that a step defines.
fn defined(step: &Step) -> Option<RegisterId> {
    match &step.instruction {
        Instruction::Binary { register, .. }
        | Instruction::Compare { register, .. }
        | Instruction::Convert { register, .. }
        | Instruction::Alloca { register, .. }
        | Instruction::ElementPointer { register, .. }
        | Instruction::Load { register, .. }
        | Instruction::StartRegion { register } => Some(*register),
        Instruction::Call { register, .. } => *register,
        Instruction::Store { .. }
        | Instruction::StoreZeros { .. }
        | Instruction::AtomicAdd { .. } => None,
    }
}

/// A form that is at least this one and does not name the register, by a fact that takes it out of the form as it has the coefficient 1 or -1 there.
fn by_fact(means: &Means<'_>, form: &Form, register: RegisterId, fact: &Fact) -> Option<Form> {
    let in_fact = coefficient(&fact.form, register);
    let factor = coefficient(form, register).saturating_mul(0i64.saturating_sub(in_fact));
    if in_fact.unsigned_abs() != 1 || factor <= 0 {
        return None;
    }
    if factor.unsigned_abs() >= FACTOR_LIMIT {
        return None;
    }
    means.within_bounds(means.copy(form).plus_multiple(factor, &fact.form))
}

/// A form that is at least this one and does not name the register, by the first fact that lets it.
fn without_register(known: Known<'_>, form: Form, register: RegisterId) -> Form {
    for fact in known.facts {
        if let Some(other) = by_fact(known.means, &form, register, fact) {
            return other;
        }
    }
    form
}

/// Adds what is left: two forms.
fn push_left(scene: &Scene<'_>, left: &Left, out: &mut TextBuffer) {
    push_form(scene, &left.self_calls, out);
    out.push_str(" ");
    push_form(scene, &left.instructions, out);
}

/// The `left` line that says what is left.
fn left_line(known: Known<'_>, left: &Left) -> String {
    let mut line = TextBuffer::new(known.means.alloc);
    line.push_str(";! left ");
    push_left(known.scene, left, &mut line);
    known.means.text(line)
}

/// Whether a block has a `left` line: where it has none, what is left stands on the label's own.
fn has_left(function: &Function, share: &Share<'_>) -> bool {
    match function.blocks.as_slice().get(share.to.0) {
        Some(block) => block.left.line != block.line,
        None => false,
    }
}

/// Whether what is left in one way is enough for another one.
fn is_enough(known: Known<'_>, one: &Left, other: &Left) -> bool {
    known.is_at_least(&one.self_calls, &other.self_calls)
        && known.is_at_least(&one.instructions, &other.instructions)
}

/// The one of two needs that is enough for both; none where neither is known to be.
fn enough_for_both(known: Known<'_>, one: Option<Left>, other: Option<Left>) -> Option<Left> {
    let (Some(one), Some(other)) = (one, other) else {
        return None;
    };
    if is_enough(known, &one, &other) {
        Some(one)
    } else if is_enough(known, &other, &one) {
        Some(other)
    } else {
        None
    }
}

impl Doing<'_, '_> {
    /// What the block does, and what is left at all of these places.
    fn spent(&self, counted: Counted, shares: &[Share<'_>]) -> Sum {
        let means = self.trying.known.means;
        let mut sum = means.sum(amount(counted.of_work(self.work)));
        for share in shares {
            sum = means.plus(sum, share.moves, counted.of_left(share.left));
        }
        sum
    }

    /// What is to be left at the block's start for what it does and for what comes next: a form that is at least that one at the block's end, and names no
    /// register that the block defines, as far as facts let it.
    fn needed(&self, counted: Counted, shares: &[Share<'_>]) -> Option<Form> {
        let known = self.trying.known;
        let means = known.means;
        let Some(mut form) = means.form(&self.spent(counted, shares)) else {
            return None;
        };
        let steps = self.block.steps.as_slice();
        for place in (0..steps.len()).rev() {
            if let Some(register) = defined(&steps[place]) {
                if coefficient(&form, register) != 0 {
                    form = without_register(known, form, register);
                }
            }
        }
        Some(form)
    }

    /// What is to be left at the block's start for one of the ways behind it.
    fn wanted(&self, shares: &[Share<'_>]) -> Option<Left> {
        let self_calls = self.needed(Counted::SelfCalls, shares);
        let instructions = self.needed(Counted::Instructions, shares);
        match (self_calls, instructions) {
            (Some(self_calls), Some(instructions)) => Some(Left {
                line: self.block.line,
                self_calls,
                instructions,
            }),
            _ => None,
        }
    }

    /// What is enough for each of these places, where one of them wants as much as each.
    fn most_wanted(&self, shares: &[Share<'_>]) -> Option<Left> {
        let [first, others @ ..] = shares else {
            return None;
        };
        let mut most = self.wanted(&[*first]);
        for share in others {
            most = enough_for_both(self.trying.known, most, self.wanted(&[*share]));
        }
        most
    }

    /// Whether what is left is known to be at least 0 where the block begins.
    fn is_at_least_zero(&self, left: &Left) -> bool {
        let known = self.trying.known;
        let means = known.means;
        let function = known.scene.function;
        let facts = means.items(start_facts(means.alloc, function, known.block.0, self.block));
        let start = Known {
            facts: facts.as_slice(),
            ..known
        };
        let zero = means.zero();
        start.is_at_least(&left.self_calls, &zero) && start.is_at_least(&left.instructions, &zero)
    }

    /// A `left` line of the block that is enough for all ways behind it, where one of them wants as much as each and the text can have the line.
    fn push_line(&self, shares: &[Share<'_>], is_one_way: bool, out: &mut TextBuffer) {
        let wanted = if is_one_way {
            self.wanted(shares)
        } else {
            self.most_wanted(shares)
        };
        let Some(wanted) = wanted else {
            return;
        };
        let line = left_line(self.trying.known, &wanted);
        let after = self.block.line;
        if self.trying.is_line(line.as_str(), after) {
            if self.is_at_least_zero(&wanted) {
                writeln!(out, "    try: {line}, after line {after}");
            } else {
                writeln!(
                    out,
                    "    {line} would be enough, but nothing shows at the block's start that it is at least 0: bound its registers there by `keeps`"
                );
            }
        }
    }

    /// What the block does, for which nothing is left.
    fn push_head(&self, out: &mut TextBuffer) {
        let known = self.trying.known;
        let label = known.scene.label(known.block);
        let instructions = self.work.instructions;
        let s = plural(amount(instructions));
        write!(
            out,
            "  %{label} has no `left` line, so nothing is left there: it does {instructions} instruction{s}"
        );
        if self.work.calls > 0 {
            let calls = self.work.calls;
            let s = plural(amount(calls));
            write!(out, " and {calls} self call{s}");
        }
        out.push_str("\n");
    }

    /// What comes next; false where a place of it has no `left` line itself.
    fn push_shares(&self, shares: &[Share<'_>], out: &mut TextBuffer) -> bool {
        let scene = self.trying.known.scene;
        let mut is_whole = true;
        for share in shares {
            let label = scene.label(share.to);
            write!(out, "    behind it comes %{label}, ");
            if has_left(scene.function, share) {
                out.push_str("with `left ");
                push_left(scene, share.left, out);
                out.push_str("`\n");
            } else {
                out.push_str("which has no `left` line either\n");
                is_whole = false;
            }
        }
        is_whole
    }

    /// Adds that the block has no `left` line, what it does and what comes next, on one way all of these places or each on a way of its own, and a line that
    /// would do; of a loop's first block, where there is none, what counts the rounds. Answers whether it may follow from what is said of a block behind it.
    pub fn push_missing(
        &self,
        shares: &[Share<'_>],
        is_one_way: bool,
        out: &mut TextBuffer,
    ) -> bool {
        self.push_head(out);
        if self.push_shares(shares, out) {
            self.push_line(shares, is_one_way, out);
            return false;
        }
        let follows = !push_rounds(self.trying.known, out);
        if follows {
            out.push_str("    begin with the last blocks\n");
        }
        follows
    }
}
