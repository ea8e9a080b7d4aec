//! Which of the lines that may be put into a text stay there: they are tried kind by kind.

use crate::limits::{Limit, MetLimit};
use crate::new_lines::NewLines;
use crate::proposal::{Kind, Proposal, proposed};
use crate::trial::Trial;
use explain_facts::{Means, match_text};
use ranges::{Effort, Unanswered};
use std::alloc::{AllocError, Global};
use std::hash::RandomState;

/// The steps that a byte of a text counts for whose lines are tried.
const STEPS_A_BYTE: usize = 100;

/// How often lines are tried anew once some were taken out.
const MOST_ROUNDS: usize = 64;

/// How often guesses are tried anew.
const MOST_GUESSES: usize = 24;

/// How deep calls are followed for zones.
const MOST_CALLS: usize = 3;

/// The bytes of a text over which guesses are tried without the lines that may show them.
const LONG: usize = 65_536;

/// What lines are tried with. Where the means do not reach, texts stay as they are.
#[derive(Drop)]
struct Tries<'a> {
    means: &'a Means<'a>,
    state: RandomState,
    /// The text before lines are put in.
    own: &'a str,
    /// The limits that were met, by the lines of that text.
    met: Vec<MetLimit>,
}

impl Tries<'_> {
    /// Notes limits that were met, by the lines of a text with lines put in.
    fn note(&mut self, text: &str, met: &[MetLimit]) {
        if met.is_empty() {
            return;
        }
        let new = NewLines::found(self.means, self.own, text);
        for next in met {
            let own = MetLimit {
                line: new.own_line(next.line),
                limit: next.limit,
            };
            if !self.met.contains(&own) {
                self.means.push(&mut self.met, own);
            }
        }
    }

    /// Whether a text is so long that guesses are tried without the lines that may show them, and nothing is found that costs and zones want.
    fn is_long(&mut self, text: &str) -> bool {
        let is_long = text.len() > LONG;
        if is_long {
            let limit = Limit::Bytes;
            self.note(text, &[MetLimit { line: 1, limit }]);
        }
        is_long
    }

    /// The text with lines of a kind, and no note of the limits that were met.
    fn proposed_unnoted(&self, text: &str, kind: Kind) -> String {
        let Proposal { text: more, .. } = proposed(self.means, self.state, text, kind);
        more
    }

    fn proposed(&mut self, text: &str, kind: Kind) -> String {
        let Proposal { text: more, met } = proposed(self.means, self.state, text, kind);
        self.note(text, met.as_slice());
        more
    }

    /// The lines of a text that were put in, of which those that do not stay are refused. None where a phase before that of numbers refuses the text.
    fn tried(&self, text: &str, new: NewLines) -> Option<NewLines> {
        let means = self.means;
        if !means.spend(text.len().saturating_mul(STEPS_A_BYTE)) {
            return None;
        }
        let matched = match_text(means.alloc, self.state, text.as_bytes(), true);
        match means.found(matched) {
            Some(matched) => {
                let mut trial = Trial { means, new };
                trial.try_all(&matched);
                let Trial { new, .. } = trial;
                Some(new)
            }
            None => None,
        }
    }

    /// Puts those of the proposed lines into a text that stand their trial; the text stays as it was, where that cannot be tried.
    fn put_in(&mut self, text: &mut String, proposal: String) {
        let mut more = proposal;
        let mut line = 0u32;
        for _round in 0..MOST_ROUNDS {
            let new = NewLines::found(self.means, text.as_str(), more.as_str());
            if new.is_empty() {
                *text = more;
                return;
            }
            let Some(new) = self.tried(more.as_str(), new) else {
                return;
            };
            if !new.has_refused() {
                *text = more;
                return;
            }
            line = new.first_refused();
            more = new.without_refused(self.means, more.as_str());
        }
        let limit = Limit::Rounds;
        self.note(text.as_str(), &[MetLimit { line, limit }])
    }

    /// Puts in lines of a kind that stand their trial.
    fn put_in_kind(&mut self, text: &mut String, kind: Kind) {
        let proposal = self.proposed(text.as_str(), kind);
        self.put_in(text, proposal);
    }

    /// Puts those of the guesses into a text that stand their trial beside the `shows` lines by which edges show them. As long as a guess is refused, what is
    /// shown without it is found anew.
    fn put_in_guessed(&mut self, text: &mut String, guesses: String) {
        let means = self.means;
        let mut guessed = guesses;
        let mut more = self.proposed(guessed.as_str(), Kind::Steps);
        for _round in 0..MOST_GUESSES {
            let new = NewLines::found(means, text.as_str(), more.as_str());
            let Some(mut new) = self.tried(more.as_str(), new) else {
                return;
            };
            let steps = NewLines::found(means, guessed.as_str(), more.as_str());
            if !new.refuse_all(&steps) {
                break;
            }
            guessed = new.without_refused(means, more.as_str());
            more = self.proposed(guessed.as_str(), Kind::Steps);
        }
        self.put_in(text, more);
    }

    /// Puts the guesses of a kind into a text, as many as stand their trial beside the lines that show them.
    fn put_in_guesses(&mut self, text: &mut String, kind: Kind) {
        let guesses = self.proposed(text.as_str(), kind);
        self.put_in_guessed(text, guesses);
    }

    /// Puts in zones where children and functions have none, and the facts that show that they cover what is touched; those of a call's callee come first, so
    /// limits are noted in the last round alone.
    fn put_in_feet(&mut self, text: &mut String) {
        let mut zones = self.proposed_unnoted(text.as_str(), Kind::Feet);
        for _round in 1..MOST_CALLS {
            zones = self.proposed_unnoted(zones.as_str(), Kind::Feet);
        }
        zones = self.proposed(zones.as_str(), Kind::Feet);
        if !NewLines::found(self.means, text.as_str(), zones.as_str()).is_empty() {
            *text = zones;
            self.put_in_guesses(text, Kind::Wanted);
        }
    }

    /// Puts in what is left, and the facts that show that this is at least 0 and enough.
    fn put_in_costs(&mut self, text: &mut String) {
        let costs = self.proposed(text.as_str(), Kind::Costs);
        let guesses = self.proposed(costs.as_str(), Kind::Wanted);
        self.put_in_guessed(text, guesses);
    }

    /// Puts in lines of each kind that stand their trial: what is sure first, since there is room for few lines at a block; zones and costs follow from facts.
    /// Of a long text each kind is tried by itself, and nothing is found that zones and costs want.
    fn put_in_all(&mut self, text: &mut String) {
        self.put_in_kind(text, Kind::Facts);
        if self.is_long(text.as_str()) {
            self.put_in_kind(text, Kind::Guesses);
            self.put_in_kind(text, Kind::Steps);
        } else {
            self.put_in_guesses(text, Kind::Guesses);
            self.put_in_guesses(text, Kind::Wanted);
        }
        if !self.is_long(text.as_str()) {
            self.put_in_feet(text);
        }
        self.put_in_kind(text, Kind::Zones);
        if !self.is_long(text.as_str()) {
            self.put_in_costs(text);
        }
        self.put_in_kind(text, Kind::Costs);
    }
}

/// A text with lines put in that follow from others and stood their trial, as far as it is known; the text as it was, where the effort is spent. In the end all
/// lines are tried together, since one may say no more than another that came later. With it the limits of what was looked at that were met, by the lines of the
/// text without them.
///
/// # Errors
///
/// Memory was refused.
pub fn with_lines(
    alloc: Global,
    state: RandomState,
    text: &[u8],
    effort: &Effort,
) -> Result<(String, Vec<MetLimit>), AllocError> {
    let own = str::from_utf8(text).unwrap_or("");
    let means = Means::new(alloc, effort);
    let mut tries = Tries {
        means: &means,
        state,
        own,
        met: Vec::new(alloc),
    };
    let mut more = String::from_str(alloc, own)?;
    tries.put_in_all(&mut more);
    let mut whole = String::from_str(alloc, own)?;
    tries.put_in(&mut whole, more);
    let Tries { met, .. } = tries;
    let mut met = met;
    met.sort_by_key(|next| next.line)?;
    match means.finish() {
        Ok(()) => {}
        Err(Unanswered::OutOfMemory) => return Err(AllocError),
        Err(Unanswered::OutOfEffort) => whole = String::from_str(alloc, own)?,
    }
    Ok((whole, met))
}
