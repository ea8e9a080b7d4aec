//! The command line as `clap` parses it, made from the table of commands.

use crate::options::fault_with;
use crate::request::{Verb, WordsFault};
use crate::table::{ABOUT, Given, Part, STATUSES, VERBS, row_of};
use crate::version::VERSION_LINES;
use clap::error::ErrorKind;
use clap::{Arg, ArgAction, Command, Error};
use std::alloc::{AllocError, Global};

/// What help calls the values of a row.
static ROW_NAMES: [&str; 3] = ["@a", "I", "N"];

/// What is done with the values of an option, or with a flag.
fn action_of(given: Given) -> ArgAction {
    match given {
        Given::Flag => ArgAction::SetTrue,
        Given::Repeated | Given::Row => ArgAction::Append,
        _ => ArgAction::Set,
    }
}

fn arg_of<'a>(alloc: Global, part: &Part) -> Result<Arg<'a>, AllocError> {
    let Part {
        name,
        value,
        given,
        help,
    } = *part;
    let has_to_be = matches!(given, Given::Word | Given::Required);
    let mut arg = Arg::new(alloc, name).help(help).required(has_to_be);
    if !matches!(given, Given::Word) {
        arg = arg.long(name).action(action_of(given));
    }
    match given {
        Given::Flag => Ok(arg),
        Given::Row => Ok(arg.value_names(&ROW_NAMES).num_args(3)),
        Given::Unless(other) => arg.value_name(value).required_unless_present(other),
        _ => Ok(arg.value_name(value)),
    }
}

/// The command of a verb, without its words and options.
fn bare_command<'a>(alloc: Global, verb: Verb) -> Command<'a> {
    let row = row_of(verb);
    let name: &'a str = verb.word();
    let about: &'a str = row.about;
    let ending: &'a str = row.calls.ending;
    Command::new(alloc, name).about(about).after_help(ending)
}

/// The command of a verb with all its words and options, as `clap` parses them.
fn verb_command<'a>(alloc: Global, verb: Verb) -> Result<Command<'a>, AllocError> {
    let mut args = Vec::new(alloc);
    for part in row_of(verb).parts {
        args.push(arg_of(alloc, part)?)?;
    }
    bare_command(alloc, verb).args(args)
}

/// The program's command, without those of the verbs.
fn bare_program<'a>(alloc: Global) -> Command<'a> {
    Command::new(alloc, "tapirvm")
        .about(ABOUT)
        .version(VERSION_LINES)
        .after_help(STATUSES)
        .subcommand_required(true)
}

/// The program's command.
pub(crate) fn command<'a>(alloc: Global) -> Result<Command<'a>, AllocError> {
    let mut commands = Vec::new(alloc);
    for verb in VERBS {
        commands.push(verb_command(alloc, verb)?)?;
    }
    bare_program(alloc).subcommands(commands)
}

/// What clap says, with a tip that works for a number below 0.
fn told(alloc: Global, error: &Error) -> Result<String, AllocError> {
    let text = format!(in alloc; "{error}")?;
    match text.as_str().split_once("use '-- -") {
        Some((before, after)) => format!(in alloc; "{before}use '--arg=-{after}"),
        None => Ok(text),
    }
}

/// The fault of words that clap does not take.
pub(crate) fn fault_of(alloc: Global, error: Error) -> WordsFault {
    match error.kind() {
        ErrorKind::OutOfMemory => WordsFault::OutOfMemory,
        ErrorKind::DisplayVersion => match told(alloc, &error) {
            Ok(text) => WordsFault::Asked(text),
            Err(AllocError) => WordsFault::OutOfMemory,
        },
        _ => fault_with(told(alloc, &error)),
    }
}
