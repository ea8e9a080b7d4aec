//! Shows the lines of the module around a line, with those where workers stand marked.

use crate::paint::{Colour, Paint};
use crate::session::Session;
use lists::TextBuffer;

/// How many lines are shown before and after a line.
const AROUND: u64 = 6;

impl Session<'_> {
    /// The line of the first worker that runs a task.
    pub(crate) fn first_line(&self) -> u64 {
        for worker in 0..self.workers {
            if let Some(view) = self.worker(worker as u64) {
                return u64::from(view.line);
            }
        }
        1
    }

    /// The colour of a line of the source: that of a comment, or of a line where a worker stands.
    fn line_colour(&self, text: &str, line: u64) -> Colour {
        if text.trim().starts_with(";") {
            return self.colour(Paint::Soft);
        }
        if self.debugger.machine().stands_at(line) {
            return self.colour(Paint::Mark);
        }
        Colour::none()
    }

    fn push_source_line(&self, out: &mut TextBuffer, line: u64) {
        let index = (line as usize).saturating_sub(1);
        let Some(text) = self.lines.get(index) else {
            return;
        };
        let Colour { begins, ends } = self.line_colour(text, line);
        write!(out, "{begins}{line:5} {text}{ends}");
        for worker in 0..self.workers {
            match self.worker(worker as u64) {
                Some(view) if u64::from(view.line) == line => {
                    write!(out, "  <- worker {worker}");
                }
                _ => {}
            }
        }
        out.push('\n');
    }

    /// The source around the line.
    pub(crate) fn push_source(&self, out: &mut TextBuffer, middle: u64) {
        let first = middle.saturating_sub(AROUND).max(1);
        for line in first..=middle.saturating_add(AROUND) {
            self.push_source_line(out, line);
        }
    }
}
