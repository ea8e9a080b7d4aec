//! The program as one call, for a page: words and texts in, all that it prints and writes out.

use crate::answers::answer;
use crate::framed::framed;
use crate::seed::Seed;
use cli_words::{Beside, Question, Request, Status, WordsFault, ended, words};
use std::alloc::{AllocError, Global};
use std::hash::RandomState;

/// What the files that a command line names hold, and standard input.
#[derive(Clone, Copy)]
pub struct Texts<'a> {
    pub module: &'a [u8],
    pub schedule: &'a [u8],
    pub input: &'a [u8],
}

/// The answer to a request.
fn obeyed(
    alloc: Global,
    request: &Request,
    texts: Texts<'_>,
    seed: &Seed,
) -> Result<Vec<u8>, AllocError> {
    let Ok(state) = RandomState::new(seed) else {
        return Err(AllocError);
    };
    let question = Question {
        alloc,
        state,
        request,
        module: Some(texts.module),
        schedule: Some(texts.schedule),
    };
    let mut input = texts.input;
    let mut output: Vec<u8> = Vec::new(alloc);
    let mut beside = Beside::nothing(alloc);
    let answered = answer(question, &mut input, &mut output, &mut beside);
    let status = ended(answered, &mut output, &mut beside);
    framed(alloc, status as u8, output.as_slice(), &beside)
}

/// The answer to words that are no request.
fn told(alloc: Global, fault: WordsFault) -> Result<Vec<u8>, AllocError> {
    let mut beside = Beside::nothing(alloc);
    match fault {
        WordsFault::Asked(text) => framed(alloc, Status::Done as u8, text.as_bytes(), &beside),
        WordsFault::Told(text) => {
            beside.notes = text;
            framed(alloc, Status::Words as u8, b"", &beside)
        }
        WordsFault::OutOfMemory => Err(AllocError),
    }
}

/// The answer to a command line that has a word in each line.
fn answered(
    alloc: Global,
    line: &[u8],
    texts: Texts<'_>,
    seed: &Seed,
) -> Result<Vec<u8>, AllocError> {
    let line = str::from_utf8(line).unwrap_or("");
    let list: Vec<&str> = line.split('\n').collect(alloc)?;
    match words(alloc, list.as_slice()) {
        Ok(request) => obeyed(alloc, &request, texts, seed),
        Err(fault) => told(alloc, fault),
    }
}

/// Answers a command line, the program's own name first and a word in each line. It writes as many bytes of the answer as there is room for, and says how
/// many there are. Returns 0, and 1 where memory is refused.
pub fn answer_line(
    alloc: Global,
    line: &[u8],
    texts: Texts<'_>,
    seed: &Seed,
    out: &mut [u8],
    needed: &mut usize,
) -> u32 {
    *needed = 0;
    match answered(alloc, line, texts, seed) {
        Ok(bytes) => {
            let count = bytes.len().min(out.len());
            out[..count].copy_from_slice(&bytes[..count]);
            *needed = bytes.len();
            0
        }
        Err(_) => 1,
    }
}
