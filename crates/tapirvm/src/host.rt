//! The whole program over its words, files and streams: reads a request, obeys it, answers the exit status.

use crate::files::{Texts, complain, read_load, read_texts, write_files};
use crate::requests::act;
use crate::times::Took;
use cli_threads::microseconds_since;
use cli_words::{Beside, Question, Request, Status, WordsFault, text_of, words};
use std::env::FillError;
use std::hash::RandomState;
use std::io;
use std::io::{BufWriter, ErrorKind, Write};
use std::random::RandomSource;
use std::rt::{Env, Files};
use std::sync::Wait;
use std::thread::Threads;
use std::time::{Clock, Instant};

/// More bytes than a word of a command line has.
const WORD_ROOM: usize = 131_072;

/// Which of the program's streams are terminals.
#[derive(Clone, Copy)]
pub struct Terminals {
    pub input: bool,
    pub output: bool,
    pub errors: bool,
}

/// The texts of the command line's words, the program's own name first.
fn read_words<R: AllocGlobal + Env>(rt: &R) -> io::Result<Vec<String>> {
    let alloc = rt.alloc();
    let mut room = vec![in alloc; 0u8; WORD_ROOM]?;
    let mut texts = Vec::new(alloc);
    for place in 0..usize::MAX {
        match rt.arg(place, room.as_mut_slice()) {
            Ok(length) => {
                let word = room.as_slice().get(..length).unwrap_or(b"");
                texts.push(text_of(alloc, word)?)?;
            }
            Err(FillError::NotPresent) => break,
            Err(FillError::TooLong) => return Err(io::Error::from(ErrorKind::InvalidInput)),
        }
    }
    Ok(texts)
}

/// Says that memory was refused.
fn stop_for_memory(rt: &impl Print) -> Status {
    match rt.println("stopped 803") {
        Ok(()) => Status::Stopped,
        Err(_) => Status::Stream,
    }
}

/// Prints why words are no request, and answers the status.
fn refuse_words(rt: &(impl Print + Eprint), fault: &WordsFault) -> Status {
    match fault {
        WordsFault::Asked(text) => match rt.print(text) {
            Ok(()) => Status::Done,
            Err(_) => Status::Stream,
        },
        WordsFault::Told(text) => {
            let _ = rt.eprint(text);
            Status::Words
        }
        WordsFault::OutOfMemory => stop_for_memory(rt),
    }
}

/// Says why a file could not be read, or that an option names nothing.
fn explain_status(rt: &impl Eprint, request: &Request, status: u8, texts: &Texts) {
    if status == Status::Words as u8 {
        let _ = rt.eprintln(match request.table {
            Some(_) => "error: --table names a function that the module does not have",
            None => "error: an option names a cell that the module does not have",
        });
    }
    if status == Status::Unreadable as u8 {
        match (&texts.module, &texts.schedule, &request.schedule) {
            (Err(error), _, _) => complain(rt, request.file.as_str(), error),
            (_, Some(Err(error)), Some(file)) => complain(rt, file.as_str(), error),
            _ => {}
        }
    }
}

/// Does what is asked over the files, writes standard output and answers the status.
fn answer<R: AllocGlobal + Clock + Eprint + Input + Print + RandomSource + Sync + Threads + Wait>(
    rt: &R,
    request: &Request,
    texts: &Texts,
    beside: &mut Beside,
) -> io::Result<u8> {
    let alloc = rt.alloc();
    let question = Question {
        alloc,
        state: RandomState::new(rt)?,
        request,
        module: bytes_of_read(&texts.module),
        schedule: texts.schedule.as_ref().and_then(bytes_of_read),
    };
    let mut output = BufWriter::new(alloc, io::writer(rt))?;
    let mut input = rt.reader();
    let status = act(rt, question, &mut input, &mut output, beside);
    Ok(finish(rt, status, output))
}

/// Tells what stands beside standard output, and answers the status.
fn tell_beside<R: AllocGlobal + Eprint + Files>(
    rt: &R,
    request: &Request,
    texts: &Texts,
    beside: &Beside,
    status: u8,
) -> io::Result<u8> {
    let _ = rt.eprint(beside.notes.as_str());
    explain_status(rt, request, status, texts);
    if status != Status::Done as u8 {
        return Ok(status);
    }
    if request.is_timed {
        let _ = rt.eprintln(&Took(beside.times));
    }
    Ok(write_files(rt, beside)? as u8)
}

/// Reads the files, does what is asked and answers the status.
fn obey<
    R: AllocGlobal
        + Clock
        + Env
        + Eprint
        + Files
        + Input
        + Print
        + RandomSource
        + Sync
        + Threads
        + Wait,
>(rt: &R, mut request: Request, terminals: Terminals) -> io::Result<u8> {
    let begun = Instant::now(rt)?;
    let texts = read_texts(rt, &request)?;
    read_load(rt, &mut request)?;
    let mut beside = Beside::nothing(rt.alloc());
    beside.times.reading = microseconds_since(rt, begun)?;
    let may_have_colours = !has_no_colours(rt);
    beside.has_colours = terminals.errors && may_have_colours;
    request.dialogue.is_for_people |= terminals.input && terminals.output;
    request.dialogue.has_colours = terminals.output && may_have_colours;
    let status = answer(rt, &request, &texts, &mut beside)?;
    tell_beside(rt, &request, &texts, &beside, status)
}

/// What was read.
fn bytes_of_read(read: &io::Result<Vec<u8>>) -> Option<&[u8]> {
    match read {
        Ok(bytes) => Some(bytes.as_slice()),
        Err(_) => None,
    }
}

/// Writes what is buffered; at a failed stream nothing further is written.
fn finish<W: Write + Drop>(rt: &impl Eprint, status: u8, output: BufWriter<W>) -> u8 {
    let mut output = output;
    if status == Status::Stream as u8 {
        drop(output.into_parts());
        return status;
    }
    match output.flush() {
        Ok(()) => status,
        // Whoever read the output wants no more of it.
        Err(error) if error.kind() == ErrorKind::BrokenPipe => Status::Stream as u8,
        Err(error) => {
            complain(rt, "standard output", &error);
            Status::Stream as u8
        }
    }
}

/// Whether the environment says that no colours are wanted: `NO_COLOR` has a value, or the terminal is called dumb.
fn has_no_colours(rt: &impl Env) -> bool {
    let mut first = [0u8; 1];
    let is_asked = match rt.var("NO_COLOR", &mut first) {
        Ok(length) => length > 0,
        Err(FillError::TooLong) => true,
        Err(FillError::NotPresent) => false,
    };
    let mut name = [0u8; 8];
    let is_dumb = match rt.var("TERM", &mut name) {
        Ok(4) => name.as_slice().starts_with(b"dumb"),
        _ => false,
    };
    is_asked || is_dumb
}

/// Reads the program's words and obeys them.
fn obey_words<
    R: AllocGlobal
        + Clock
        + Env
        + Eprint
        + Files
        + Input
        + Print
        + RandomSource
        + Sync
        + Threads
        + Wait,
>(rt: &R, terminals: Terminals) -> io::Result<u8> {
    let alloc = rt.alloc();
    let texts = read_words(rt)?;
    let list: Vec<&str> = texts.iter().map(|t| t.as_str()).collect(alloc)?;
    match words(alloc, list.as_slice()) {
        Ok(request) => obey(rt, request, terminals),
        Err(fault) => Ok(refuse_words(rt, &fault) as u8),
    }
}

/// Does what the program's words ask for, and answers its exit status. The caller says which streams are terminals.
pub fn run<
    R: AllocGlobal
        + Clock
        + Env
        + Eprint
        + Files
        + Input
        + Print
        + RandomSource
        + Sync
        + Threads
        + Wait,
>(rt: &R, terminals: Terminals) -> u8 {
    match obey_words(rt, terminals) {
        Ok(status) => status,
        Err(error) if error.kind() == ErrorKind::OutOfMemory => stop_for_memory(rt) as u8,
        Err(error) => {
            complain(rt, "tapirvm", &error);
            Status::Stopped as u8
        }
    }
}
