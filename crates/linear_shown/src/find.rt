//! Whether many facts show a form: by one, by bounds, or by two that the index finds (entailment).

ghost use Rattle.std.specs.Prelude.{◌≡◌, ◌-◌, suc, true, IfOk, IfSome, IsTrue, drop, length};
ghost use Rattle.linear_shown.specs.Index.{IsKeyOf, AreLayers};
ghost use Rattle.linear_shown.specs.Tested.{is_shown};

use crate::effort::Effort;
use crate::index::{FEW, Layers, index_of};
use crate::lookup::{
    Search, made_up, made_up_alone, made_up_by_bounds, made_up_by_hint, made_up_by_pairs,
};
use crate::show::shown;
use crate::weight::key_of;
use linear::{Fact, Form, side_of};
use std::alloc::{AllocError, Global};

/// The newest facts, among which many forms find what shows them.
fn newest(facts: &[Fact]) -> &[Fact]
    ensures { result.now ≡ drop (length facts.now - 4) facts.now }
{
    if facts.len() <= FEW {
        facts
    } else {
        &facts[facts.len() - FEW..]
    }
}

/// The key of a form's terms.
fn key_of_form(form: &Form) -> Option<u128>
    ensures { IfSome result (IsKeyOf form.now.terms) }
{
    key_of(side_of(form).terms)
}

/// Whether one of the facts shows the form.
fn shown_by_one(search: &Search<'_>) -> bool
    requires index { AreLayers search.now.facts.now (suc (length search.now.facts.now)) search.now.layers.settled.now search.now.layers.recent.now }
    requires key { IsKeyOf search.now.form.now.terms search.now.key }
    ensures { IsTrue result → is_shown search.now.facts.now search.now.form.now ≡ true }
{
    made_up_alone(search)
}

/// Whether bounds of the form's two registers show it.
fn shown_by_bounds(search: &Search<'_>) -> bool
    requires index { AreLayers search.now.facts.now (suc (length search.now.facts.now)) search.now.layers.settled.now search.now.layers.recent.now }
    ensures { IsTrue result → is_shown search.now.facts.now search.now.form.now ≡ true }
{
    made_up_by_bounds(search)
}

/// Whether two facts that showed a form of this key before show it.
fn shown_by_hint(search: &Search<'_>) -> bool
    ensures { IsTrue result → is_shown search.now.facts.now search.now.form.now ≡ true }
{
    made_up_by_hint(search)
}

/// Whether two facts that served lately show the form.
fn shown_by_pairs(search: &Search<'_>) -> bool
    ensures { IsTrue result → is_shown search.now.facts.now search.now.form.now ≡ true }
{
    made_up_by_pairs(search)
}

/// Whether two of the newest facts show the form. They are tried where there are so many entries that the search among them all takes longer.
fn shown_by_newest(search: &Search<'_>) -> bool
    ensures { IsTrue result → is_shown search.now.facts.now search.now.form.now ≡ true }
{
    if !search.layers.settled.is_empty() {
        shown(newest(search.facts), search.form)
    } else {
        false
    }
}

/// Whether the facts show the form.
fn shown_by_two(search: &Search<'_>) -> bool
    requires index { AreLayers search.now.facts.now (suc (length search.now.facts.now)) search.now.layers.settled.now search.now.layers.recent.now }
    requires key { IsKeyOf search.now.form.now.terms search.now.key }
    ensures { result ≡ is_shown search.now.facts.now search.now.form.now }
{
    made_up(search)
}

/// Whether the facts show the form, by their index. Most forms are shown by one fact, by a bound of each register, by the two
/// facts that showed them before, by two that showed others lately, or by two of the newest.
fn shown_by_search(search: &Search<'_>) -> bool
    requires index { AreLayers search.now.facts.now (suc (length search.now.facts.now)) search.now.layers.settled.now search.now.layers.recent.now }
    requires key { IsKeyOf search.now.form.now.terms search.now.key }
    ensures { result ≡ is_shown search.now.facts.now search.now.form.now }
{
    if shown_by_one(search) {
        return true;
    }
    if shown_by_bounds(search) {
        return true;
    }
    if shown_by_hint(search) {
        return true;
    }
    if shown_by_pairs(search) {
        return true;
    }
    if shown_by_newest(search) {
        return true;
    }
    shown_by_two(search)
}

/// Whether the facts show the form, by the index of them all.
pub fn shown_by_index(facts: &[Fact], layers: Layers<'_>, form: &Form) -> bool
    requires { AreLayers facts.now (suc (length facts.now)) layers.settled.now layers.recent.now }
    ensures { result ≡ is_shown facts.now form.now }
{
    match key_of_form(form) {
        Some(key) => shown_by_search(&Search {
            facts,
            layers,
            form,
            key,
        }),
        None => shown(facts, form),
    }
}

/// Whether the facts show the form, by an index where each fact has a key.
fn shown_by_many(alloc: Global, facts: &[Fact], form: &Form) -> Result<bool, AllocError>
    ensures { IfOk result (λ b. b ≡ is_shown facts.now form.now) }
{
    match index_of(alloc, facts)? {
        Some(index) => Ok(shown_by_index(facts, index.layers(&Effort::unlimited()), form)),
        None => Ok(shown(facts, form)),
    }
}

/// Whether the facts show the form. Of many facts the newest are tried first, and then the second of two is looked up.
pub fn find_shown(alloc: Global, facts: &[Fact], form: &Form) -> Result<bool, AllocError>
    ensures { IfOk result (λ b. b ≡ is_shown facts.now form.now) }
{
    if shown(newest(facts), form) {
        return Ok(true);
    }
    if facts.len() <= FEW {
        return Ok(false);
    }
    shown_by_many(alloc, facts, form)
}
