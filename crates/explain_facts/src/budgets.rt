//! What budgets have left over.

use crate::means::Means;
use crate::scene::Scene;
use crate::spelling::push_form;
use linear::Form;
use lists::TextBuffer;
use program::Program;
use syntax::Module;

/// What a number is more than a form.
fn push_over(means: &Means<'_>, scene: &Scene<'_>, number: u64, form: &Form, out: &mut TextBuffer) {
    match means.form(&means.room(number, form)) {
        Some(form) => push_form(scene, &form, out),
        None => out.push_str("?"),
    }
}

/// What a function's budget has over what is left at its entry.
fn push_budget(means: &Means<'_>, scene: &Scene<'_>, out: &mut TextBuffer) {
    let Some(entry) = scene.function.blocks.as_slice().first() else {
        return;
    };
    let name = scene.function.name.as_str();
    let calls = scene.function.budget.self_calls;
    let instructions = scene.function.budget.instructions;
    write!(
        out,
        "@{name} budget {calls} {instructions}, over what is left at the entry: "
    );
    push_over(means, scene, calls, &entry.left.self_calls, out);
    out.push_str(" ");
    push_over(means, scene, instructions, &entry.left.instructions, out);
    out.push_str("\n");
}

/// What the budget of each function of an accepted module has over what is left at its entry.
pub fn push_budgets(means: &Means<'_>, program: &Program, whole: &Module, out: &mut TextBuffer) {
    for index in 0..program.functions.len() {
        if let Some(scene) = means.found(Scene::of(means.alloc, program, whole, index)) {
            push_budget(means, &scene, out);
        }
    }
}
