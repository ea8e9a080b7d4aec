//! What each verb of the program does, but for runs on threads, files and clocks.
//!
//! Answers about modules, in `modules`:
//!
//! - `judging`: from a question to its answer, or to a module that is to run (`judged`).
//! - `requests`: what is answered before a module is judged.
//! - `verdict`: the verdict within the effort that is granted (`verdict_on`). `accepted`: what `verify` answers of a
//!   module that is accepted.
//! - `reasons`: what `explain` prints. `faults`: faults at their lines, for editors.
//! - `annotations`: lines put in, or taken out. `own_lines`: what is then told, by the lines of the text without them.
//!   `limits`: what was not looked at for them.
//! - `answer`: what is answered, and why there is no answer.
//! - `json`: answers as JSON, as `docs/FORMATS.md` tells: of an accepted module (`known`), of a broken rule (`fault`),
//!   of explanations and remarks (`explanation`), all by `list`.
//!
//! The program as one call, for a page:
//!
//! - `play`: takes the words of a command line, the texts of the files that they name and numbers to hash names with,
//!   and gives out what the program would print, and the files that it would write (`answer_line`). A run on workers is
//!   drawn there by a seed, `--load` finds no file, and `--speedup` and `--time` do nothing.
//! - `framed`: an answer as bytes. `seed`: those numbers.
//!
//! Who answers, in `answers`: a question about runs of a module (`answer_verified`: `cli_runs` or `cli_debug`), and each
//! question where there are no threads.
#![tactic(auto)]

mod answers;
mod framed;
mod modules;
mod play;
mod seed;

pub use answers::answer_verified;
pub use modules::{Judgement, Verdict, effort_of, judged, verdict_on};
pub use play::{Texts, answer_line};
pub use seed::Seed;
