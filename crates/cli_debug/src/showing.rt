//! Shows a position: tasks, frames, workers, arrays of cells, and how far the run is.

use crate::paint::{Colour, Paint};
use crate::session::{Session, push_event};
use debugger::{Status, TaskView};
use frame::Path;
use lists::{OutOfMemory, TextBuffer};
use views::TaskName;

/// The most cells that one command shows of an object.
const MOST_CELLS: u64 = 64;

impl Session<'_> {
    fn push_status(&self, out: &mut TextBuffer, status: Status) {
        let running = if self.is_for_people {
            "running on worker"
        } else {
            "running"
        };
        match status {
            Status::Running(worker) => write!(out, "{running} {worker}"),
            Status::Ready => out.push_str("ready"),
            Status::Stalled(_) => out.push_str("stalled"),
        }
    }

    fn push_path(&self, out: &mut TextBuffer, path: &Path) {
        let Colour { begins, ends } = self.colour(Paint::Path);
        let name = TaskName(path);
        write!(out, "{begins}{name}{ends}");
    }

    /// Where a task stands: its top frame, where that is another than its own, and the line.
    fn push_place(&self, out: &mut TextBuffer, view: TaskView<'_>) {
        if !view.top_path.is_same(view.path) {
            out.push_str(", in ");
            self.push_path(out, view.top_path);
        }
        let Colour { begins, ends } = self.colour(Paint::Soft);
        let line = view.line;
        let text = self.source(line);
        writeln!(out, "{begins} line {line}: {text}{ends}");
    }

    /// How a task stands, and where.
    fn push_view(&self, out: &mut TextBuffer, view: TaskView<'_>) {
        self.push_path(out, view.path);
        out.push(' ');
        self.push_status(out, view.status);
        self.push_place(out, view);
    }

    /// A note that no task or frame has this path.
    pub(crate) fn push_missing(&self, out: &mut TextBuffer, what: &str, path: &Path) {
        write!(out, "no {what} ");
        self.push_path(out, path);
        out.push_str(" lives here\n");
    }

    /// A task in words for a program.
    fn push_plain_task(&self, out: &mut TextBuffer, path: &Path) {
        let name = TaskName(path);
        write!(out, "task {name} ");
        let Some(TaskView { status, line, .. }) = self.debugger.show_task(path) else {
            return out.push_str("none\n");
        };
        self.push_status(out, status);
        writeln!(out, " line {line}");
    }

    pub(crate) fn push_task(&self, out: &mut TextBuffer, path: &Path) {
        match self.debugger.show_task(path) {
            _ if !self.is_for_people => self.push_plain_task(out, path),
            Some(view) => self.push_view(out, view),
            None => self.push_missing(out, "task", path),
        }
    }

    /// The tree of living frames, or the tasks among them.
    pub(crate) fn push_living(
        &self,
        out: &mut TextBuffer,
        are_frames: bool,
    ) -> Result<(), OutOfMemory> {
        let paths = self.paths()?;
        for path in &paths {
            if are_frames {
                self.push_frame(out, path);
            } else if let Some(view) = self.debugger.show_task(path) {
                self.push_view(out, view);
            }
        }
        Ok(())
    }

    /// What each worker does.
    pub(crate) fn push_workers(&self, out: &mut TextBuffer) {
        for worker in 0..self.workers {
            write!(out, "worker {worker} ");
            match self.worker(worker as u64) {
                Some(view) => {
                    self.push_path(out, view.path);
                    self.push_place(out, view);
                }
                None => out.push_str("idle\n"),
            }
        }
    }

    /// The position, and for people the events beside it.
    pub(crate) fn push_where(&self, out: &mut TextBuffer) {
        let position = self.debugger.position();
        let length = self.debugger.len();
        write!(out, "at {position} of {length}");
        if self.is_for_people {
            self.push_events_at(out, position);
        }
        out.push('\n');
    }

    fn push_events_at(&self, out: &mut TextBuffer, position: usize) {
        let events = self.debugger.events();
        if let Some(last) = events.get(position.wrapping_sub(1)) {
            out.push_str(", last ");
            push_event(out, last);
        }
        if let Some(next) = events.get(position) {
            out.push_str(", next ");
            push_event(out, next);
        }
    }

    /// A living frame in the tree, further to the right the deeper it is.
    fn push_frame(&self, out: &mut TextBuffer, path: &Path) {
        let Some(view) = self.debugger.show_frame(path) else {
            return;
        };
        for _level in 0..path.numbers.len() {
            out.push_str("  ");
        }
        self.push_path(out, path);
        let function = self.names.function(view.frame.function.0);
        write!(out, " @{function}");
        if let Some(task) = self.debugger.show_task(path) {
            out.push_str(", task ");
            self.push_status(out, task.status);
        }
        out.push('\n');
    }

    /// The cells of one alloca.
    fn push_alloca(
        &self,
        out: &mut TextBuffer,
        path: &Path,
        function: usize,
        number: usize,
        cells: u64,
    ) {
        let name = self.names.alloca(function, number);
        write!(out, "%{name}");
        for index in 0..cells.min(MOST_CELLS) {
            if let Some(value) = self.debugger.show_alloca(path, number, index) {
                write!(out, " {value}");
            }
        }
        out.push_str(if cells > MOST_CELLS { " ..\n" } else { "\n" });
    }

    /// The arrays of a frame's function. A cell that was never written shows any number.
    pub(crate) fn push_allocas(&self, out: &mut TextBuffer, path: &Path) {
        let Some(view) = self.debugger.show_frame(path) else {
            return self.push_missing(out, "frame", path);
        };
        let function = view.frame.function.0;
        let Some(found) = self.names.program().functions.as_slice().get(function) else {
            return;
        };
        if found.allocas.is_empty() {
            out.push_str("none\n");
        }
        for (number, alloca) in found.allocas.as_slice().iter().enumerate() {
            self.push_alloca(out, path, function, number, alloca.cells);
        }
    }

    /// Cells of a global, up to one that is not there.
    pub(crate) fn push_cells(&self, out: &mut TextBuffer, name: &str, from: u64, count: u64) {
        let what = if self.is_for_people { "" } else { "cell " };
        for index in from..from.saturating_add(count.min(MOST_CELLS)) {
            match self.debugger.show_cell(name, index) {
                Some(value) => writeln!(out, "{what}@{name}:{index} {value}"),
                None if self.is_for_people => return writeln!(out, "no cell @{name}:{index}"),
                None => return out.push_str("cell none\n"),
            }
        }
    }
}
