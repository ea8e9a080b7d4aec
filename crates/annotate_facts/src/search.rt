//! The search for facts that add up to a sum (entailment of linear inequalities).

use crate::heap::Heap;
use crate::sum::Sum;

/// The most sums that a search keeps.
const MOST_RESTS: usize = 128;

/// What is left to be shown once a fact is taken out of another rest.
#[derive(Drop)]
struct Rest<'w, 'a> {
    sum: Sum<'a>,
    /// How many facts were taken out until then, and how many show the whole at least: one more for each register that is left.
    steps: usize,
    facts: usize,
    /// The number of that rest; of the first one its own.
    of: usize,
    fact: &'w Sum<'a>,
    times: i128,
    /// Whether facts were taken out of it.
    is_followed: bool,
}

impl<'w, 'a> Rest<'w, 'a> {
    fn new(sum: Sum<'a>, steps: usize, of: usize, fact: &'w Sum<'a>, times: i128) -> Rest<'w, 'a> {
        let facts = steps.saturating_add(sum.terms.len());
        Rest {
            sum,
            steps,
            facts,
            of,
            fact,
            times,
            is_followed: false,
        }
    }

    /// Whether it is to be followed before another one: fewer facts may do, or as many and it has a greater number, of which they may take more. By the fewest
    /// registers alone, however many facts were taken out before, nine texts of 218 were lost; in the order in which rests are found, a chain of bounds
    /// each said six times.
    fn promises_more(&self, other: &Rest<'_, 'a>) -> bool {
        self.facts < other.facts
            || self.facts == other.facts && self.sum.constant > other.sum.constant
    }
}

/// The rests in the order in which they were found; the first one is what is to be shown. Of those with the same registers that are not followed yet only the
/// one with the greatest number is kept.
#[derive(Drop)]
struct Search<'w, 'a> {
    heap: &'a Heap,
    facts: &'w [Sum<'a>],
    sum: &'w Sum<'a>,
    /// What the first rest is to show beside one more fact, if that is asked.
    beside: Option<&'w Sum<'a>>,
    rests: Vec<Rest<'w, 'a>>,
    /// How many rests were compared with others since that was last counted.
    compared: usize,
}

/// How often a fact is taken out of a rest for a register with these coefficients; none where the signs differ.
pub fn times_for(coefficient: i128, of_fact: i128) -> Option<i128> {
    if coefficient == 0 || of_fact == 0 || (coefficient < 0) != (of_fact < 0) {
        return None;
    }
    Some(coefficient.checked_div(of_fact).unwrap_or(1).max(1))
}

/// Whether a fact may be taken so many times in a sum: once, or as often as one of the sum's coefficients says.
pub fn is_factor(sum: &Sum<'_>, times: i128) -> bool {
    for (_name, coefficient) in &sum.terms {
        if coefficient.unsigned_abs() == times.unsigned_abs() {
            return true;
        }
    }
    times == 1
}

impl<'w, 'a> Search<'w, 'a> {
    /// The register of a rest that the fewest facts have with the sign of its coefficient, and that; none where one of them is in no fact.
    fn register_of(&self, rest: &Sum<'a>) -> Option<(&'a str, i128)> {
        let mut found = None;
        let mut least = usize::MAX;
        for term in &rest.terms {
            let (name, coefficient) = *term;
            let mut count = 0usize;
            for fact in self.facts {
                if times_for(coefficient, fact.coefficient(name)).is_some() {
                    count = count.saturating_add(1);
                }
            }
            if count < least {
                least = count;
                found = Some(*term);
            }
        }
        if least == 0 { None } else { found }
    }

    /// Where a rest is to stand: in place of one with the same registers and a lesser number that is not followed yet, else behind all. None where one with the
    /// same registers has no less a number, or the rest may not stand in a line.
    fn place_for(&self, next: &Rest<'w, 'a>) -> Option<usize> {
        if !next.sum.has_form_terms() {
            return None;
        }
        let mut place = self.rests.len();
        for (number, rest) in self.rests.iter().enumerate() {
            if let Some(over) = rest.sum.apart_from(&next.sum) {
                if over >= 0 {
                    return None;
                }
                if !rest.is_followed {
                    place = number;
                }
            }
        }
        Some(place)
    }

    /// Keeps a rest, if it may stand in a line and says more than those that are there, and there is room.
    fn keep(&mut self, rest: Rest<'w, 'a>) {
        match self.place_for(&rest) {
            Some(place) if place < self.rests.len() => self.rests[place] = rest,
            Some(place) if place < MOST_RESTS => self.heap.push(&mut self.rests, rest),
            _ => {}
        }
    }

    /// Adds what is left of a rest without so many times a fact. Its number, where that shows the rest: it is a number, and not below 0.
    fn push(&mut self, of: usize, fact: &'w Sum<'a>, times: i128) -> Option<usize> {
        let Some(rest) = self.rests.get(of) else {
            return None;
        };
        let sum = rest.sum.with(fact, times.saturating_neg());
        let next = Rest::new(sum, rest.steps.saturating_add(1), of, fact, times);
        let number = self.rests.len();
        self.compared = self.compared.saturating_add(number);
        match next.sum.as_number() {
            Some(left) if left < 0 => None,
            Some(_) => {
                self.heap.push(&mut self.rests, next);
                Some(number)
            }
            None => {
                self.keep(next);
                None
            }
        }
    }

    /// Takes each fact out of a rest that has a register as the rest has it. The lines that show a rest, as soon as there are some.
    fn take_out(&mut self, of: usize, name: &'a str, coefficient: i128) -> Option<Vec<Sum<'a>>> {
        let facts = self.facts;
        for fact in facts {
            if let Some(times) = times_for(coefficient, fact.coefficient(name)) {
                if let Some(last) = self.push(of, fact, times) {
                    let lines = self.lines_to(last);
                    if lines.is_some() {
                        return lines;
                    }
                }
            }
        }
        None
    }

    /// Takes facts out of the rest of this number. What is looked at is taken off the effort: each fact, by each of its registers, and the rests compared.
    fn follow(&mut self, of: usize, effort: &mut usize) -> Option<Vec<Sum<'a>>> {
        if of >= self.rests.len() {
            return None;
        }
        self.rests[of].is_followed = true;
        let sum = &self.rests[of].sum;
        let looks = sum.terms.len().saturating_add(1);
        let lines = match self.register_of(sum) {
            Some((name, coefficient)) => self.take_out(of, name, coefficient),
            None => None,
        };
        let cost = self.facts.len().saturating_mul(looks);
        *effort = effort.saturating_sub(cost.saturating_add(self.compared));
        self.compared = 0;
        lines
    }

    /// The rest that promises most of those that are not followed yet; the first one of several.
    fn next(&self) -> Option<usize> {
        let mut best: Option<(usize, &Rest<'w, 'a>)> = None;
        for (number, rest) in self.rests.iter().enumerate() {
            let is_better = match best {
                Some((_number, other)) => rest.promises_more(other),
                None => true,
            };
            if is_better && !rest.is_followed {
                best = Some((number, rest));
            }
        }
        match best {
            Some((number, _rest)) => Some(number),
            None => None,
        }
    }

    /// Follows one rest after another, each time the one that promises most; the lines that show one.
    fn run(&mut self, effort: &mut usize) -> Option<Vec<Sum<'a>>> {
        for _rest in 0..MOST_RESTS {
            if *effort == 0 {
                return None;
            }
            let Some(of) = self.next() else {
                return None;
            };
            let lines = self.follow(of, effort);
            if lines.is_some() {
                return lines;
            }
        }
        None
    }

    /// The sum of the rest of this number.
    fn sum_of(&self, number: usize) -> &Sum<'a> {
        if number < self.rests.len() {
            return &self.rests[number].sum;
        }
        self.sum
    }

    /// The sum that says how often the last fact may count, which was taken out of the rest of this number: what that was made of, or what the first rest is to
    /// show.
    fn counted_last(&self, number: usize) -> &Sum<'a> {
        if number == 0 {
            return self.beside.unwrap_or(self.sum);
        }
        let of = match self.rests.get(number) {
            Some(whole) => whole.of,
            None => 0,
        };
        self.sum_of(of)
    }

    /// Adds a line, if it may be one; whether it may.
    fn push_line(&self, lines: &mut Vec<Sum<'a>>, line: Sum<'a>) -> bool {
        let is_form = line.is_form();
        if is_form {
            self.heap.push(lines, line);
        }
        is_form
    }

    /// Adds so many times the fact of a rest, where the fact may not count as often in what the rest was made of; whether it is a line or may count.
    fn push_fact(&self, lines: &mut Vec<Sum<'a>>, rest: &Rest<'_, 'a>, counted: &Sum<'a>) -> bool {
        if is_factor(counted, rest.times) {
            return true;
        }
        let multiple = rest.fact.times(rest.times);
        is_factor(&multiple, rest.times) && self.push_line(lines, multiple)
    }

    /// Adds what the rest of this number says once so much of it is shown, unless that is what is to be shown; whether it is a line.
    fn push_whole(&self, lines: &mut Vec<Sum<'a>>, number: usize, over: i128) -> bool {
        if number == 0 && self.beside.is_none() {
            return true;
        }
        self.push_line(lines, self.sum_of(number).raised(over.saturating_neg()))
    }

    /// The lines with which the facts show the first rest, by the one that is shown: on the way to that what each rest was made of, if all of them may stand in
    /// lines.
    fn lines_to(&self, last: usize) -> Option<Vec<Sum<'a>>> {
        let mut lines = self.heap.list();
        let over = self.sum_of(last).constant;
        let mut number = last;
        for _step in 0..self.rests.len() {
            let Some(rest) = self.rests.get(number) else {
                return None;
            };
            let is_told = if number == 0 {
                return Some(lines);
            } else if number == last {
                self.push_fact(&mut lines, rest, self.counted_last(rest.of))
            } else {
                self.push_fact(&mut lines, rest, self.sum_of(rest.of))
                    && self.push_whole(&mut lines, rest.of, over)
            };
            if !is_told {
                return None;
            }
            number = rest.of;
        }
        None
    }
}

/// Lines with which facts show that a sum is at least 0: each of them is shown by two facts and those before it, and so is the sum. Where it is to show another
/// sum `beside` one more fact, it is the last of them itself, unless one fact alone shows it, and as often as that other sum lets it count. None where none are
/// found within the effort, of which what was looked at is taken off.
pub fn lines_between<'w, 'a>(
    heap: &'a Heap,
    facts: &'w [Sum<'a>],
    sum: &'w Sum<'a>,
    beside: Option<&'w Sum<'a>>,
    effort: &mut usize,
) -> Option<Vec<Sum<'a>>> {
    let mut search = Search {
        heap,
        facts,
        sum,
        beside,
        rests: heap.list(),
        compared: 0,
    };
    heap.push(&mut search.rests, Rest::new(sum.copy(), 0, 0, sum, 0));
    search.run(effort)
}
