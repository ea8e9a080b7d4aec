//! From the words of an annotation's line to what it says, kind by kind (parser of annotations).

ghost use Rattle.std.specs.Prelude.{◌≡◌};
ghost use Rattle.ir_annotation.specs.Reading.{made};
ghost use Rattle.ir_annotation.specs.Answers.{Gives};
ghost use Rattle.ir_annotation.specs.Lines.{as_line, inequality_of, zone_of, measure_of, budget_from_words, left_of, moded_zone_of, pending_of};
ghost use Rattle.ir_annotation.specs.Lines.{bound_of, annotation_behind, annotation_of};
ghost use Rattle.ir_annotation.specs.Compared.{compared};

use crate::forms::read_form;
use crate::keywords::{Keyword, read_keyword};
use crate::limits::{BUDGET_MOST, Limited, MEASURE_MOST};
use crate::meaning::{Annotation, AnnotationLine};
use crate::words::{read_mode, read_number, read_object, read_register, read_relation, unexpected};
use lists::Name;
use refusal::{Refused, rule};
use std::alloc::Global;
use syntax::{Budget, Inequality, Left, Measure, Mode, Pending, Zone};

/// An annotation's line, within the limits or not.
fn line_of(annotation: Annotation, is_within_limits: bool) -> AnnotationLine
    ensures { result ≡ record { annotation = annotation; is_within_limits = is_within_limits } }
{
    AnnotationLine {
        annotation,
        is_within_limits,
    }
}

/// `F R F`
#[tactic(auto, unfolding(crate::specs::Lines::inequality_of))]
fn read_inequality(alloc: Global, words: &[Name], line: u32) -> Result<Limited<Inequality>, Refused>
    ensures { Gives (λ i. i) line result (inequality_of line words.now) }
{
    let [left, relation, right] = words else {
        return Err(unexpected(line));
    };
    let left = read_form(alloc, left.as_bytes(), line)?;
    let relation = read_relation(relation.as_bytes(), line)?;
    let right = read_form(alloc, right.as_bytes(), line)?;
    Ok(Limited {
        value: Inequality {
            line,
            left: left.value,
            relation,
            right: right.value,
        },
        is_within_limits: left.is_within_limits && right.is_within_limits,
    })
}

/// `O F F`
#[tactic(auto, unfolding(crate::specs::Lines::zone_of))]
fn read_zone(alloc: Global, mode: Mode, words: &[Name], line: u32) -> Result<Limited<Zone>, Refused>
    ensures { Gives (λ z. z) line result (zone_of line mode words.now) }
{
    let [object, low, high] = words else {
        return Err(unexpected(line));
    };
    let object = read_object(alloc, object.as_bytes(), line)?;
    let low = read_form(alloc, low.as_bytes(), line)?;
    let high = read_form(alloc, high.as_bytes(), line)?;
    Ok(Limited {
        value: Zone {
            line,
            mode,
            object: object.value,
            low: low.value,
            high: high.value,
        },
        is_within_limits: object.is_within_limits && low.is_within_limits && high.is_within_limits,
    })
}

/// `max N`
fn read_bound(max: &[u8], bound: &[u8], line: u32) -> Result<Limited<u64>, Refused>
    ensures { Gives (λ n. n) line result (bound_of max.now bound.now) }
{
    if max == b"max".as_slice() {
        read_number(MEASURE_MOST, bound, line)
    } else {
        Err(unexpected(line))
    }
}

/// `F max N`
#[tactic(auto, unfolding(crate::specs::Lines::measure_of))]
fn read_measure(alloc: Global, words: &[Name], line: u32) -> Result<AnnotationLine, Refused>
    ensures { Gives (λ a. a) line result (made (as_line Annotation.Measure) (measure_of line words.now)) }
{
    let [form, max, bound] = words else {
        return Err(unexpected(line));
    };
    let form = read_form(alloc, form.as_bytes(), line)?;
    let bound = read_bound(max.as_bytes(), bound.as_bytes(), line)?;
    let measure = Measure {
        line,
        form: form.value,
        bound: bound.value,
    };
    Ok(line_of(
        Annotation::Measure(measure),
        form.is_within_limits && bound.is_within_limits,
    ))
}

/// `K S`
#[tactic(auto, unfolding(crate::specs::Lines::budget_from_words))]
fn read_budget(words: &[Name], line: u32) -> Result<AnnotationLine, Refused>
    ensures { Gives (λ a. a) line result (made (as_line Annotation.Budget) (budget_from_words line words.now)) }
{
    let [calls, instructions] = words else {
        return Err(unexpected(line));
    };
    let calls = read_number(BUDGET_MOST, calls.as_bytes(), line)?;
    let instructions = read_number(BUDGET_MOST, instructions.as_bytes(), line)?;
    let budget = Budget {
        line,
        self_calls: calls.value,
        instructions: instructions.value,
    };
    Ok(line_of(
        Annotation::Budget(budget),
        calls.is_within_limits && instructions.is_within_limits,
    ))
}

/// `F F`
#[tactic(auto, unfolding(crate::specs::Lines::left_of))]
fn read_left(alloc: Global, words: &[Name], line: u32) -> Result<AnnotationLine, Refused>
    ensures { Gives (λ a. a) line result (made (as_line Annotation.Left) (left_of line words.now)) }
{
    let [calls, instructions] = words else {
        return Err(unexpected(line));
    };
    let calls = read_form(alloc, calls.as_bytes(), line)?;
    let instructions = read_form(alloc, instructions.as_bytes(), line)?;
    let left = Left {
        line,
        self_calls: calls.value,
        instructions: instructions.value,
    };
    Ok(line_of(
        Annotation::Left(left),
        calls.is_within_limits && instructions.is_within_limits,
    ))
}

/// `MODE O F F`
#[tactic(auto, unfolding(crate::specs::Lines::moded_zone_of))]
fn read_moded_zone(alloc: Global, words: &[Name], line: u32) -> Result<Limited<Zone>, Refused>
    ensures { Gives (λ z. z) line result (moded_zone_of line words.now) }
{
    let [mode, words @ ..] = words else {
        return Err(unexpected(line));
    };
    let mode = read_mode(mode.as_bytes(), line)?;
    read_zone(alloc, mode, words, line)
}

/// `%s MODE O F F`
#[tactic(auto, unfolding(crate::specs::Lines::pending_of))]
fn read_pending(alloc: Global, words: &[Name], line: u32) -> Result<AnnotationLine, Refused>
    ensures { Gives (λ a. a) line result (made (as_line Annotation.Pending) (pending_of line words.now)) }
{
    let [region, words @ ..] = words else {
        return Err(unexpected(line));
    };
    let region = read_register(alloc, region.as_bytes(), line)?;
    let zone = read_moded_zone(alloc, words, line)?;
    let pending = Pending {
        region: region.value,
        zone: zone.value,
    };
    Ok(line_of(
        Annotation::Pending(pending),
        region.is_within_limits && zone.is_within_limits,
    ))
}

/// A zone of a function behind its mode.
fn read_function_zone(
    alloc: Global,
    mode: Mode,
    words: &[Name],
    line: u32,
) -> Result<AnnotationLine, Refused>
    ensures { Gives (λ a. a) line result (made (as_line Annotation.FunctionZone) (zone_of line mode words.now)) }
{
    let found = read_zone(alloc, mode, words, line)?;
    Ok(line_of(
        Annotation::FunctionZone(found.value),
        found.is_within_limits,
    ))
}

/// A zone of a block behind `foot`.
fn read_foot(alloc: Global, words: &[Name], line: u32) -> Result<AnnotationLine, Refused>
    ensures { Gives (λ a. a) line result (made (as_line Annotation.Foot) (moded_zone_of line words.now)) }
{
    let found = read_moded_zone(alloc, words, line)?;
    Ok(line_of(Annotation::Foot(found.value), found.is_within_limits))
}

/// What an inequality says behind `requires`, `ensures` and `keeps`, and behind `shows`.
fn compared(keyword: Keyword, inequality: Inequality) -> Annotation
    ensures { result ≡ compared keyword inequality }
{
    match keyword {
        Keyword::Requires => Annotation::Requires(inequality),
        Keyword::Ensures => Annotation::Ensures(inequality),
        Keyword::Keeps => Annotation::Keeps(inequality),
        _ => Annotation::Shows(inequality),
    }
}

/// An inequality behind its word.
fn read_compared(
    alloc: Global,
    keyword: Keyword,
    words: &[Name],
    line: u32,
) -> Result<AnnotationLine, Refused>
    ensures { Gives (λ a. a) line result (made (as_line (compared keyword)) (inequality_of line words.now)) }
{
    let found = read_inequality(alloc, words, line)?;
    Ok(line_of(compared(keyword, found.value), found.is_within_limits))
}

/// What stands behind the first word.
#[tactic(auto, unfolding(crate::specs::Lines::annotation_behind))]
fn read_behind(
    alloc: Global,
    keyword: Keyword,
    words: &[Name],
    line: u32,
) -> Result<AnnotationLine, Refused>
    ensures { Gives (λ a. a) line result (annotation_behind line keyword words.now) }
{
    match keyword {
        Keyword::Requires => read_compared(alloc, Keyword::Requires, words, line),
        Keyword::Ensures => read_compared(alloc, Keyword::Ensures, words, line),
        Keyword::Keeps => read_compared(alloc, Keyword::Keeps, words, line),
        Keyword::Shows => read_compared(alloc, Keyword::Shows, words, line),
        Keyword::Reads => read_function_zone(alloc, Mode::Reads, words, line),
        Keyword::Writes => read_function_zone(alloc, Mode::Writes, words, line),
        Keyword::Adds => read_function_zone(alloc, Mode::Adds, words, line),
        Keyword::Measure => read_measure(alloc, words, line),
        Keyword::Budget => read_budget(words, line),
        Keyword::Pending => read_pending(alloc, words, line),
        Keyword::Left => read_left(alloc, words, line),
        Keyword::Foot => read_foot(alloc, words, line),
    }
}

/// Reads the words behind `;!` of an annotation's line, in the order of the line: runs without blanks.
///
/// 107: the first word begins no annotation. 103: there is no word, or the words behind the first are not those of its annotation.
/// A name or a number past its limit is no fault here: the line then says that it is not within its limits.
pub fn read_annotation(alloc: Global, words: &[Name], line: u32) -> Result<AnnotationLine, Refused>
    ensures { Gives (λ a. a) line result (annotation_of words.now line) }
{
    let [word, words @ ..] = words else {
        return Err(unexpected(line));
    };
    match read_keyword(word.as_bytes()) {
        None => Err(Refused::Fault {
            number: rule::UNKNOWN_ANNOTATION,
            line,
        }),
        Some(keyword) => read_behind(alloc, keyword, words, line),
    }
}
