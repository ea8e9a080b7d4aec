//! The table of the program's commands, each with its words and options: help, completions and the manual page are made from it.

use crate::request::Verb;

/// What the program is.
pub(crate) const ABOUT: &str =
    "A verified fork-join machine for LLVM IR with Tapir's detach, reattach and sync";

/// A text, with the statuses behind it.
macro_rules! with_statuses {
    ($($before:literal),*) => {
        concat!(
            $($before,)*
            "\
Statuses:
  0  done
  1  the module is refused
  2  the command line is wrong, an option names nothing, or help was asked for
  3  the run was stopped, memory was refused, or the effort is spent
  4  FILE, SCHEDULE or data cannot be read
  5  SCHEDULE is no schedule
  6  standard input cannot be read, or an output cannot be written"
        )
    };
}

/// What the program's help tells last.
pub(crate) const STATUSES: &str = with_statuses!();

/// Calls of a command as examples, each a line.
#[derive(Clone, Copy)]
pub(crate) struct Calls {
    pub(crate) lines: &'static str,
    /// What the help of the command tells last.
    pub(crate) ending: &'static str,
}

macro_rules! calls {
    ($($call:literal),+) => {
        Calls {
            lines: concat!($($call, "\n"),+),
            ending: with_statuses!("Example:\n", $("  ", $call, "\n",)+ "\n"),
        }
    };
}

/// What `tapirvm debug --help` says of its commands.
pub(crate) const DIALOGUE: &str = "\
Commands, one a line:
  to N        goes to the position after N events
  forward     does the next event
  back        takes the last event back
  break L     goes to the next position at which a worker's next instruction
              stands on line L of the module, else to the end
  task PATH   shows who runs a task and the line of its next instruction
  cell @a:I   shows a cell
  quit        ends, as the end of the input does

Between terminals, or with --interactive, there is a prompt, and help lists
more commands.

Example:
  $ printf 'to 6\\ntask root\\nback\\n' | tapirvm debug pair.ll s.txt --workers 2 --arg 7
  at 6 of 15
  task root stalled line 20
  at 5 of 15

Statuses:
  as those of run --help";

pub(crate) static VERBS: [Verb; 11] = [
    Verb::Verify,
    Verb::Explain,
    Verb::Serial,
    Verb::Run,
    Verb::Replay,
    Verb::Debug,
    Verb::Print,
    Verb::Show,
    Verb::Annotate,
    Verb::Completions,
    Verb::Man,
];

/// How a word or an option of a command is given.
#[derive(Clone, Copy)]
pub(crate) enum Given {
    /// A word that has to be there.
    Word,
    /// An option with a value.
    Option,
    /// An option with a value, which has to be there.
    Required,
    /// An option with a value, which has to be there unless this one is.
    Unless(&'static str),
    /// An option with a value, which may be given more than once.
    Repeated,
    /// An option with three values, which may be given more than once.
    Row,
    /// An option without a value.
    Flag,
}

/// A word or an option of a command.
#[derive(Clone, Copy)]
pub(crate) struct Part {
    pub(crate) name: &'static str,
    pub(crate) value: &'static str,
    pub(crate) given: Given,
    pub(crate) help: &'static str,
}

const FILE: Part = Part {
    name: "file",
    value: "FILE",
    given: Given::Word,
    help: "the text of the module",
};

const FILE_OR_NUMBER: Part = Part {
    name: "file",
    value: "FILE|NUMBER",
    given: Given::Word,
    help: "the text of a module, or the number of a rule",
};

const TABLE: Part = Part {
    name: "table",
    value: "@f",
    given: Given::Option,
    help: "prints the costs and depths of a function",
};

const EFFORT: Part = Part {
    name: "effort",
    value: "N|unbounded",
    given: Given::Option,
    help: "gives up after N steps of search, in place of 1000000000, or never",
};

const ARG: Part = Part {
    name: "arg",
    value: "V",
    given: Given::Repeated,
    help: "an argument of @main, in order; --arg=-5 for one below 0",
};

const SET: Part = Part {
    name: "set",
    value: "@a:I=V",
    given: Given::Repeated,
    help: "sets cell I of the global @a before the run",
};

const SHOW: Part = Part {
    name: "show",
    value: "@a:I",
    given: Given::Repeated,
    help: "prints cell I of the global @a after the run",
};

const WORKERS: Part = Part {
    name: "workers",
    value: "N",
    given: Given::Required,
    help: "the number of workers, from 1 to 64",
};

const WORKERS_OF_ONE: Part = Part {
    given: Given::Unless("speedup"),
    ..WORKERS
};

const SPEEDUP: Part = Part {
    name: "speedup",
    value: "N,N..",
    given: Given::Option,
    help: "in place of --workers: times runs on each of these numbers of workers, the least of five",
};

const SEED: Part = Part {
    name: "seed",
    value: "S",
    given: Given::Option,
    help: "draws the events at random by this number",
};

const SAVE: Part = Part {
    name: "save",
    value: "OUT",
    given: Given::Option,
    help: "writes the events to a file, as replay takes them",
};

const SCHEDULE: Part = Part {
    name: "schedule",
    value: "SCHEDULE",
    given: Given::Word,
    help: "the events, a line for each: step W N, or steal W PATH",
};

const TRACE: Part = Part {
    name: "trace",
    value: "",
    given: Given::Flag,
    help: "prints a line for each event before the answer",
};

const PICTURE: Part = Part {
    name: "picture",
    value: "OUT",
    given: Given::Option,
    help: "writes a picture of the run to a file, as SVG",
};

const JSON: Part = Part {
    name: "json",
    value: "",
    given: Given::Flag,
    help: "prints the answer as one object of JSON",
};

const EVENTS: Part = Part {
    name: "json",
    value: "OUT",
    given: Given::Option,
    help: "writes a line of JSON for each event to a file",
};

const PAGE: Part = Part {
    name: "page",
    value: "OUT",
    given: Given::Option,
    help: "writes a page to step through the run to a file, as HTML",
};

const STATS: Part = Part {
    name: "stats",
    value: "",
    given: Given::Flag,
    help: "prints what each worker did after the answer",
};

const SHELL: Part = Part {
    name: "shell",
    value: "SHELL",
    given: Given::Word,
    help: "bash, zsh or fish",
};

const LOAD: Part = Part {
    name: "load",
    value: "@a=FILE",
    given: Given::Repeated,
    help: "fills the global @a with the numbers of a file before the run",
};

const DUMP: Part = Part {
    name: "dump",
    value: "@a=FILE",
    given: Given::Repeated,
    help: "writes the numbers of the global @a to a file after the run",
};

const RAW: Part = Part {
    name: "raw",
    value: "",
    given: Given::Flag,
    help: "takes the files for words of eight bytes, the low one first",
};

const CELLS: Part = Part {
    name: "cells",
    value: "@a I N",
    given: Given::Row,
    help: "prints N cells of the global @a from cell I on, after the run",
};

const TIME: Part = Part {
    name: "time",
    value: "",
    given: Given::Flag,
    help: "tells on standard error what reading, verifying and running took",
};

const INTERACTIVE: Part = Part {
    name: "interactive",
    value: "",
    given: Given::Flag,
    help: "has a prompt and help, as between terminals",
};

const ANNOTATE: Part = Part {
    name: "annotate",
    value: "",
    given: Given::Flag,
    help: "puts in lines that follow from others first, as the command of this name does",
};

const PRUNE: Part = Part {
    name: "prune",
    value: "",
    given: Given::Flag,
    help: "takes annotations out that an accepted module can do without, and puts none in",
};

const WRITE: Part = Part {
    name: "write",
    value: "",
    given: Given::Flag,
    help: "writes the text into FILE, and does not print it",
};

/// What the help says of a command.
#[derive(Clone, Copy)]
pub(crate) struct CommandRow {
    /// What it tells first.
    pub(crate) about: &'static str,
    pub(crate) calls: Calls,
    /// Its words and options, as its help lists them.
    pub(crate) parts: &'static [Part],
}

static VERIFY_ROW: CommandRow = CommandRow {
    about: "verifies a module, and tells its budget and depth",
    calls: calls!("$ tapirvm verify fib.ll --table @fib"),
    parts: &[FILE, TABLE, ANNOTATE, EFFORT, JSON],
};

static EXPLAIN_ROW: CommandRow = CommandRow {
    about: "says why a module is refused and what was to be shown, or what an accepted one could do without; or prints a rule",
    calls: calls!("$ tapirvm explain fib.ll", "$ tapirvm explain 602"),
    parts: &[FILE_OR_NUMBER, ANNOTATE, EFFORT, JSON],
};

static SERIAL_ROW: CommandRow = CommandRow {
    about: "runs the serial elision of a module",
    calls: calls!("$ tapirvm serial pair.ll --arg 7 --show @a:0"),
    parts: &[
        FILE, ARG, SET, SHOW, LOAD, DUMP, RAW, CELLS, TIME, ANNOTATE, EFFORT,
    ],
};

static RUN_ROW: CommandRow = CommandRow {
    about: "runs a module on workers",
    calls: calls!(
        "$ tapirvm run fib.ll --workers 4 --arg 10",
        "$ tapirvm run fib.ll --workers 4 --arg 6 --seed 1 --save s.txt"
    ),
    parts: &[
        FILE,
        ARG,
        SET,
        SHOW,
        LOAD,
        DUMP,
        RAW,
        CELLS,
        WORKERS_OF_ONE,
        SPEEDUP,
        SEED,
        SAVE,
        TRACE,
        STATS,
        PICTURE,
        EVENTS,
        PAGE,
        TIME,
        ANNOTATE,
        EFFORT,
    ],
};

static REPLAY_ROW: CommandRow = CommandRow {
    about: "runs a module by a schedule",
    calls: calls!("$ tapirvm replay pair.ll s.txt --workers 2 --arg 7 --trace"),
    parts: &[
        FILE, ARG, SET, SHOW, LOAD, DUMP, RAW, CELLS, SCHEDULE, WORKERS, SAVE, TRACE, STATS,
        PICTURE, EVENTS, PAGE, TIME, EFFORT,
    ],
};

static DEBUG_ROW: CommandRow = CommandRow {
    about: "goes forwards and backwards through a schedule, by commands from standard input",
    calls: Calls {
        lines: "$ tapirvm debug pair.ll s.txt --workers 2 --arg 7\n",
        ending: DIALOGUE,
    },
    parts: &[
        FILE,
        ARG,
        SET,
        SHOW,
        LOAD,
        RAW,
        SCHEDULE,
        WORKERS,
        INTERACTIVE,
        EFFORT,
    ],
};

static PRINT_ROW: CommandRow = CommandRow {
    about: "prints the canonical text of a module",
    calls: calls!("$ tapirvm print fib.ll"),
    parts: &[FILE],
};

static SHOW_ROW: CommandRow = CommandRow {
    about: "tells what the verifier knows of each block of a module",
    calls: calls!("$ tapirvm show fib.ll"),
    parts: &[FILE, EFFORT, JSON],
};

static ANNOTATE_ROW: CommandRow = CommandRow {
    about: "prints a module with annotations put in that follow from others, or without those that it does not need",
    calls: calls!(
        "$ tapirvm annotate fib.ll > annotated.ll",
        "$ tapirvm annotate --prune --write annotated.ll"
    ),
    parts: &[FILE, PRUNE, WRITE, EFFORT],
};

static COMPLETIONS_ROW: CommandRow = CommandRow {
    about: "prints a script that completes the words of this program in a shell",
    calls: calls!("$ source <(tapirvm completions bash)"),
    parts: &[SHELL],
};

static MAN_ROW: CommandRow = CommandRow {
    about: "prints the manual page",
    calls: calls!("$ tapirvm man > tapirvm.1 && man ./tapirvm.1"),
    parts: &[],
};

/// What help says of a verb's command, and the words and options that the command takes.
pub(crate) fn row_of(verb: Verb) -> &'static CommandRow {
    match verb {
        Verb::Verify => &VERIFY_ROW,
        Verb::Explain => &EXPLAIN_ROW,
        Verb::Serial => &SERIAL_ROW,
        Verb::Run => &RUN_ROW,
        Verb::Replay => &REPLAY_ROW,
        Verb::Debug => &DEBUG_ROW,
        Verb::Print => &PRINT_ROW,
        Verb::Show => &SHOW_ROW,
        Verb::Annotate => &ANNOTATE_ROW,
        Verb::Completions => &COMPLETIONS_ROW,
        Verb::Man => &MAN_ROW,
    }
}
