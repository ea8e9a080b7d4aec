//! The dialogue: a line is read, done and answered, until `quit` or the end of the input.

use crate::command::{Command, read_command};
use crate::help::HELP;
use crate::paint::{Colour, Paint};
use crate::session::Session;
use crate::word::Word;
use cli_jobs::{Halt, Job, scheduled};
use cli_words::{Beside, Status};
use debugger::Debugger;
use ir_reader::read;
use lists::{OutOfMemory, TextBuffer};
use std::alloc::AllocError;
use std::io;
use std::io::{BufRead, BufReader, Read, Write};
use views::Names;

/// What people are told where a command does not find what it looks for.
fn note_of(command: &Command<'_>) -> &'static str {
    match command {
        Command::Number(Word::Next, _) => "that worker has no further event",
        Command::Number(Word::Over, _) => {
            "that worker has no further event, or the call does not end"
        }
        Command::Path(..) => "it does not end before the schedule does",
        _ => "no worker comes to that line any more: this is the end",
    }
}

impl Session<'_> {
    /// Where the session stands now, and a note where what was looked for was not found.
    fn push_arrival(&self, out: &mut TextBuffer, is_found: bool, note: &str) {
        if self.is_for_people && !is_found {
            let Colour { begins, ends } = self.colour(Paint::Mark);
            writeln!(out, "{begins}{note}{ends}");
        }
        self.push_where(out);
        if self.is_for_people {
            self.push_workers(out);
        }
    }

    /// Goes where a command asks to, and says whether that was found; none where it does not ask to go.
    fn go(&mut self, command: &Command<'_>) -> Result<Option<bool>, OutOfMemory> {
        let here = self.debugger.position();
        let is_found = match command {
            Command::Number(Word::To, position) => self.go_to(*position as usize),
            Command::Alone(Word::Forward) => self.go_to(here.saturating_add(1)),
            Command::Alone(Word::Back) => self.go_to(here.saturating_sub(1)),
            Command::Number(Word::Next, worker) => self.go_next(*worker),
            Command::Number(Word::Over, worker) => self.go_over(*worker),
            Command::Number(Word::Break, line) => self.go_to_line(*line),
            Command::Path(Word::Until, path) => self.go_to_end(path),
            _ => return Ok(None),
        };
        Ok(Some(is_found?))
    }

    /// Shows what a command asks for.
    fn show(&self, out: &mut TextBuffer, command: &Command<'_>) -> Result<(), OutOfMemory> {
        match command {
            Command::Alone(Word::Tasks) => return self.push_living(out, false),
            Command::Alone(Word::Frames) => return self.push_living(out, true),
            Command::Alone(Word::Where) => self.push_where(out),
            Command::Alone(Word::Workers) => self.push_workers(out),
            Command::Alone(Word::Help) => out.push_str(HELP),
            Command::Alone(_) => self.push_source(out, self.first_line()),
            Command::Number(_, line) => self.push_source(out, *line),
            Command::Path(Word::Registers, path) => return self.push_registers(out, path),
            Command::Path(Word::Allocas, path) => self.push_allocas(out, path),
            Command::Path(_, path) => self.push_task(out, path),
            Command::Cells { name, from, count } => self.push_cells(out, name, *from, *count),
            Command::Unknown(_) if !self.is_for_people => out.push_str("unknown\n"),
            Command::Unknown(said) => writeln!(out, "{said}"),
        }
        Ok(())
    }

    /// Obeys a line; false where the dialogue ends.
    fn obey(&mut self, out: &mut TextBuffer, line: &str) -> Result<bool, OutOfMemory> {
        if self.is_for_people && line.is_empty() {
            return Ok(true);
        }
        let command = read_command(self.alloc, line, self.is_for_people)?;
        if matches!(&command, Command::Alone(Word::Quit)) {
            return Ok(false);
        }
        match self.go(&command)? {
            Some(is_found) => self.push_arrival(out, is_found, note_of(&command)),
            None => self.show(out, &command)?,
        }
        Ok(true)
    }

    /// The text of a line: without blanks around it where it is people's, without its LF where it is a program's.
    fn text_of<'l>(&self, line: &'l [u8]) -> &'l str {
        let text = str::from_utf8(line).unwrap_or("?");
        if self.is_for_people {
            text.trim()
        } else {
            text.strip_suffix("\n").unwrap_or(text)
        }
    }

    /// Writes a prompt for people.
    fn prompt<W: Write>(&self, output: &mut W) -> io::Result<()> {
        if self.is_for_people {
            let position = self.debugger.position();
            let length = self.debugger.len();
            write!(output, "{position}/{length}> ")?;
        }
        output.flush()
    }

    /// Reads the next line into the place of the last one, if there is one. People's empty line asks for the last again.
    fn read_next<B: BufRead>(&self, input: &mut B, last: &mut Vec<u8>) -> io::Result<bool> {
        let mut line = Vec::new(self.alloc);
        if input.read_until(b'\n', &mut line)? == 0 {
            return Ok(false);
        }
        if !self.is_for_people || !self.text_of(line.as_slice()).is_empty() {
            *last = line;
        }
        Ok(true)
    }

    /// Answers a line; false where the dialogue ends.
    fn answer_line<W: Write>(&mut self, line: &[u8], output: &mut W) -> io::Result<bool> {
        let text = self.text_of(line);
        let mut out = TextBuffer::new(self.alloc);
        let Ok(goes_on) = self.obey(&mut out, text) else {
            return Err(io::Error::from(AllocError));
        };
        output.write_all(out.finish()?.as_bytes())?;
        Ok(goes_on)
    }

    /// Asks for the next line and answers it; false where the dialogue ends.
    fn answer_next<B: BufRead, W: Write>(
        &mut self,
        input: &mut B,
        last: &mut Vec<u8>,
        output: &mut W,
    ) -> io::Result<bool> {
        self.prompt(output)?;
        if self.read_next(input, last)? {
            return self.answer_line(last.as_slice(), output);
        }
        if self.is_for_people {
            output.write_all(b"\n")?;
        }
        Ok(false)
    }

    /// Answers line after line.
    fn answer_all<R: Read + Drop, W: Write>(&mut self, input: R, output: &mut W) -> io::Result<()> {
        let mut input = BufReader::new(self.alloc, input)?;
        let mut last = Vec::new(self.alloc);
        for _line in 0..u64::MAX {
            if !self.answer_next(&mut input, &mut last, output)? {
                break;
            }
        }
        Ok(())
    }
}

/// The dialogue of a debugger before the first event of the schedule, by the module's names and lines. People are told first how to ask.
fn converse<R: Read + Drop, W: Write>(
    job: &Job<'_>,
    debugger: Debugger<'_>,
    names: &Names<'_>,
    lines: &[&str],
    input: R,
    output: &mut W,
) -> Result<Status, Halt> {
    let dialogue = job.request.dialogue;
    let mut session = Session {
        alloc: job.alloc,
        debugger,
        verified: job.verified,
        names,
        lines,
        workers: job.request.workers,
        is_for_people: dialogue.is_for_people,
        has_colours: dialogue.has_colours,
    };
    if dialogue.is_for_people {
        output.write_all(b"help lists the commands\n")?;
    }
    session.answer_all(input, output)?;
    output.flush()?;
    Ok(Status::Done)
}

/// The dialogue of a debugger before the first event of the schedule.
fn answer_by<R: Read, W: Write>(
    job: &Job<'_>,
    debugger: Debugger<'_>,
    input: &mut R,
    output: &mut W,
) -> Result<Status, Halt> {
    // It was read before.
    if let Ok(module) = read(job.alloc, job.state, job.text)
        && let Ok(names) = Names::of(job.alloc, job.verified.program(), &module)
        && let Ok(lines) = job.lines()
    {
        let lines = lines.as_slice();
        return converse(job, debugger, &names, lines, &mut *input, output);
    }
    Err(Halt::Memory)
}

/// Goes through the schedule by the commands of the input.
pub fn answer_commands<R: Read, W: Write>(
    job: &Job<'_>,
    input: &mut R,
    output: &mut W,
    beside: &mut Beside,
) -> Result<Status, Halt> {
    let (events, memory) = scheduled(job, beside)?;
    let args = job.request.args.as_slice();
    let workers = job.request.workers;
    let debugger = Debugger::new(job.alloc, job.verified, args, memory, workers, events)?;
    answer_by(job, debugger, input, output)
}
