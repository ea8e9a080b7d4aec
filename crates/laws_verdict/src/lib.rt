//! Laws about the verdict of `verify` as it is defined, which no phase alone can state. There is no code to run here.
//!
//! - `Verdicts`: a text has one verdict (`one_verdict`).
//! - `Sure`: one labelling has each alloca for sure wherever it is read (`reads_are_sure`).
//! - `Sums`: a sum of operands with modest factors has a form (`modest_sums_have_forms`).
//! - `Limited`: limited forms ask modest sums alone (`limited_forms_ask_little`).
//! - `Written`: the forms of a program that a text means are limited, and its numbers are of 64 bits (`forms_are_limited`).
//! - `Formed`: so each sum that it asks of numbers and zones has a form (`sums_have_forms`).
#![tactic(auto)]

ghost use Rattle.laws_verdict.specs.Sure.{ReadsAreSure};
ghost use Rattle.laws_verdict.specs.Formed.{SumsHaveForms};
ghost use Rattle.laws_verdict.specs.Limited.{LimitedFormsAskLittle};
ghost use Rattle.laws_verdict.specs.Sums.{ModestSumsHaveForms};
ghost use Rattle.laws_verdict.specs.Verdicts.{VerdictsAreOne};
ghost use Rattle.laws_verdict.specs.Written.{FormsAreLimited};

/// A text has one verdict: the program that it means, or the number and the line of its fault.
pub fn one_verdict()
    ensures { VerdictsAreOne }
{}

/// In an accepted program there is a labelling of the allocas, by what is sure and what is due at the start of each block, that respects each
/// edge, and by it each load, each atomic addition and each passing of an alloca finds it stored.
pub fn reads_are_sure()
    ensures { ReadsAreSure }
{}

/// A sum of operands whose factors are below 2^24 in all passes no bound of a form, so that it is a fact, or may be shown.
pub fn modest_sums_have_forms()
    ensures { ModestSumsHaveForms }
{}

/// Of forms with four registers, each at most a million times, and a number of 64 bits, the rules ask such sums alone: a difference of two forms
/// with operands put in, and what is left less what is done and what is left at two targets.
pub fn limited_forms_ask_little()
    ensures { LimitedFormsAskLittle }
{}

/// In a program that a text means each form of an annotation has registers four million times at most, all together, and a number of 64 bits; each number
/// that stands in a register's place is of 64 bits too.
pub fn forms_are_limited()
    ensures { FormsAreLimited }
{}

/// So each sum that makes a fact of such a program known, and each that a rule on numbers or zones asks there, has a form, whether the rules are kept or broken: none is
/// unknown or not shown because it passes the bounds of one, so no text is refused for these bounds.
pub fn sums_have_forms()
    ensures { SumsHaveForms }
{}
