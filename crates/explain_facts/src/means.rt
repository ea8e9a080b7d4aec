//! Memory and effort: what questions are answered with, and what is told is made of.

use linear::{Fact, Form, FormFault, side_of};
use linear_shown::{FactCursor, Known};
use lists::{ListBuffer, OutOfMemory, Seq, TextBuffer};
use program::{Block, Function, Program};
use ranges::{BlockFacts, Effort, Move, Sum, Unanswered, block_facts, push_parts, sum_form};
use refusal::Broken;
use std::alloc::{AllocError, Global};
use std::cell::Cell;

/// The memory and the effort that are there. What one of them did not reach for is left out, or answered by no. So what was made may be wrong, and nothing
/// of it may be told before [`Means::finish`] said that they reached for all.
#[derive(Drop)]
pub struct Means<'a> {
    pub alloc: Global,
    pub effort: &'a Effort,
    lack: Cell<Option<Unanswered>>,
}

impl<'a> Means<'a> {
    pub fn new(alloc: Global, effort: &'a Effort) -> Means<'a> {
        Means {
            alloc,
            effort,
            lack: Cell::new(None),
        }
    }

    /// Notes what did not reach, unless something did not before.
    pub fn note(&self, lack: Unanswered) {
        if self.lack.get().is_none() {
            self.lack.set(Some(lack));
        }
    }

    /// Whether memory and effort reached for all that was asked.
    ///
    /// # Errors
    ///
    /// One of them did not reach for something: which one did not first.
    pub fn finish(&self) -> Result<(), Unanswered> {
        match self.lack.get() {
            Some(lack) => Err(lack),
            None => Ok(()),
        }
    }

    /// Counts so many steps; whether memory and effort reached for all till now.
    pub fn spend(&self, steps: usize) -> bool {
        if self.effort.is_spent() {
            self.note(Unanswered::OutOfEffort);
        } else {
            self.effort.spend(steps as u64);
        }
        self.lack.get().is_none()
    }

    /// What was made, if it was.
    pub fn kept<T: Drop>(&self, made: Result<T, Unanswered>) -> Option<T> {
        match made {
            Ok(made) => Some(made),
            Err(lack) => {
                self.note(lack);
                None
            }
        }
    }

    /// What was found, if something was.
    pub fn found<T: Drop>(&self, found: Result<Option<T>, OutOfMemory>) -> Option<T> {
        match found {
            Ok(found) => found,
            Err(OutOfMemory) => {
                self.note(Unanswered::OutOfMemory);
                None
            }
        }
    }

    /// An answer; no where there is none.
    pub fn is_so(&self, answer: Result<bool, Unanswered>) -> bool {
        match answer {
            Ok(answer) => answer,
            Err(lack) => {
                self.note(lack);
                false
            }
        }
    }

    /// Whether this is known to be so of a form: that it is at least 0.
    pub fn shows(&self, known: &Known<'_>, form: &Form) -> bool {
        match known.ask(form) {
            Ok(is_shown) => is_shown,
            Err(_) => {
                self.note(Unanswered::OutOfEffort);
                false
            }
        }
    }

    /// Notes whether memory was refused for what was done.
    pub fn noted(&self, done: Result<(), AllocError>) {
        if done.is_err() {
            self.note(Unanswered::OutOfMemory);
        }
    }

    /// What a list has; nothing where memory was refused for one of its elements.
    pub fn items<T: Drop>(&self, made: Result<Vec<T>, OutOfMemory>) -> Vec<T> {
        match made {
            Ok(items) => items,
            Err(OutOfMemory) => {
                self.note(Unanswered::OutOfMemory);
                Vec::new(self.alloc)
            }
        }
    }

    /// The list that was filled; nothing where memory was refused for one of its elements.
    pub fn list<T: Drop>(&self, filled: ListBuffer<T>) -> Vec<T> {
        match filled.finish() {
            Ok(list) => list,
            Err(_) => {
                self.note(Unanswered::OutOfMemory);
                Vec::new(self.alloc)
            }
        }
    }

    /// Adds an element at the end of a list.
    pub fn push<T: Drop>(&self, list: &mut Vec<T>, value: T) {
        if list.push(value).is_err() {
            self.note(Unanswered::OutOfMemory);
        }
    }

    /// A text that was made, and not where memory was refused for a piece of it.
    pub fn made(&self, made: Result<String, AllocError>) -> String {
        match made {
            Ok(text) => text,
            Err(_) => {
                self.note(Unanswered::OutOfMemory);
                String::new(self.alloc)
            }
        }
    }

    /// The text that was written.
    pub fn text(&self, written: TextBuffer) -> String {
        self.made(written.finish())
    }

    /// The form that is 0.
    pub fn zero(&self) -> Form {
        Form::from_constant(self.alloc, 0)
    }

    /// A copy of a form.
    pub fn copy(&self, form: &Form) -> Form {
        match form.copy(self.alloc) {
            Ok(copy) => copy,
            Err(_) => {
                self.note(Unanswered::OutOfMemory);
                self.zero()
            }
        }
    }

    /// A number as a sum.
    pub fn sum(&self, number: i128) -> Sum {
        Sum {
            constant: number,
            parts: Seq::new(self.alloc),
        }
    }

    /// A sum, and a form with the moves put in.
    pub fn plus(&self, sum: Sum, moves: &[Move], form: &Form) -> Sum {
        let Sum { constant, parts } = sum;
        let side = side_of(form);
        let mut parts = parts.into_vec();
        if push_parts(&mut parts, moves, 1, side.terms).is_err() {
            self.note(Unanswered::OutOfMemory);
        }
        Sum {
            constant: constant.saturating_add(side.constant),
            parts: Seq::from_vec(parts),
        }
    }

    /// A sum, less a form with the moves put in.
    pub fn less(&self, sum: Sum, moves: &[Move], form: &Form) -> Sum {
        let Sum { constant, parts } = sum;
        let side = side_of(form);
        let mut parts = parts.into_vec();
        if push_parts(&mut parts, moves, -1, side.terms).is_err() {
            self.note(Unanswered::OutOfMemory);
        }
        Sum {
            constant: constant.saturating_sub(side.constant),
            parts: Seq::from_vec(parts),
        }
    }

    /// Goes on with facts to so many of them.
    pub fn seek(&self, cursor: &mut FactCursor<'_>, count: usize) {
        cursor.seek(count);
        self.noted(cursor.index());
    }

    /// A form with the moves put in.
    pub fn placed(&self, moves: &[Move], form: &Form) -> Sum {
        self.plus(self.sum(0), moves, form)
    }

    /// A number, less a form.
    pub(crate) fn room(&self, number: u64, form: &Form) -> Sum {
        self.less(self.sum(i128::from(number)), &[], form)
    }

    /// high - low, each with what stands for its registers put in.
    pub fn between(&self, for_high: &[Move], high: &Form, for_low: &[Move], low: &Form) -> Sum {
        self.less(self.placed(for_high, high), for_low, low)
    }

    /// The form of a sum, unless it would pass the bounds of a form.
    pub fn form(&self, sum: &Sum) -> Option<Form> {
        self.found(sum_form(self.alloc, sum))
    }

    /// What was made of forms, unless it would pass the bounds of a form.
    pub fn within_bounds(&self, made: Result<Form, FormFault>) -> Option<Form> {
        match made {
            Ok(form) => Some(form),
            Err(FormFault::Bounds) => None,
            Err(FormFault::Memory) => {
                self.note(Unanswered::OutOfMemory);
                None
            }
        }
    }

    /// What is known in a block, and whether that shows all that its instructions owe; none where effort or memory did not reach.
    pub fn table(
        &self,
        program: &Program,
        function: &Function,
        index: usize,
        block: &Block,
    ) -> Option<(BlockFacts, Option<Broken>)> {
        if !self.spend(block.steps.len()) {
            return None;
        }
        self.kept(block_facts(self.alloc, program, function, index, block, self.effort))
    }

    /// Facts, of which each can be asked what it shows with those before it.
    pub fn cursor<'f>(&'f self, facts: &'f [Fact]) -> FactCursor<'f> {
        let mut cursor = FactCursor::new(self.alloc, facts, self.effort);
        self.noted(cursor.index());
        cursor
    }
}
