//! From the words of a command line to a request (argument parser).

ghost use Rattle.std.specs.Prelude.{◌≡◌, IfOk, IfSome, map};
ghost use Rattle.cli_words.specs.Asked.{IsAsked, word_of};

use crate::command::{command, fault_of};
use crate::options::{Options, wrong_value};
use crate::request::{Request, Verb, WordsFault};
use crate::table::VERBS;
use clap::ArgMatches;
use std::alloc::Global;

/// The verb that a word names.
fn verb_of(word: &str) -> Option<Verb>
    ensures { IfSome result (λ verb. word.now ≡ word_of verb) }
{
    for verb in VERBS {
        if verb.word() == word {
            return Some(verb);
        }
    }
    None
}

/// What the words of a verb's own command ask for.
fn request_for(alloc: Global, verb: Verb, matches: &ArgMatches<'_>) -> Result<Request, WordsFault>
    ensures { IfOk result (λ r. r.verb ≡ verb) }
{
    let mut options = Options::new(alloc, matches);
    let request = options.request(verb);
    options.check(&request);
    match options.fault() {
        None => Ok(request),
        Some(fault) => Err(fault),
    }
}

/// Reads the program's words, the program's own name first.
pub fn words<'a>(alloc: Global, words: &'a [&'a str]) -> Result<Request, WordsFault>
    ensures { IfOk result (λ r. IsAsked (map (λ w. w.now) words.now) r.verb) }
{
    let parsed = match command(alloc)?.try_get_matches_from(words) {
        Ok(matches) => matches,
        Err(error) => return Err(fault_of(alloc, error)),
    };
    let Some((word, matches)) = parsed.subcommand() else {
        return Err(wrong_value(alloc, "<COMMAND>", ""));
    };
    match verb_of(word) {
        Some(verb) => request_for(alloc, verb, matches),
        None => Err(wrong_value(alloc, "<COMMAND>", word)),
    }
}
