//! The picture of a run, as SVG.

use crate::pictures::colour::{LOOKS, hatching_of, hue_of};
use crate::pictures::grid::{Grid, LEFT, STAY, WORK};
use crate::pictures::legend::{LEGEND, push_legend};
use crate::pictures::scene::{Scene, Stay, Theft, Work};
use crate::pictures::summary::push_summary;
use lists::TextBuffer;
use std::alloc::{AllocError, Global};
use std::fmt;

fn push_head(out: &mut TextBuffer, grid: Grid) {
    let width = grid.width();
    let height = grid.bottom().saturating_add(LEGEND);
    writeln!(
        out,
        "<svg xmlns=\"http://www.w3.org/2000/svg\" width=\"{width}\" height=\"{height}\" viewBox=\"0 0 {width} {height}\">\n{LOOKS}\n<rect width=\"{width}\" height=\"{height}\" class=\"back\"/>"
    );
}

/// The numbers of rounds, each where its round ends, with a thin line down.
fn push_axis(out: &mut TextBuffer, grid: Grid) {
    out.push_str("<text x=\"12\" y=\"20\" class=\"number\">round</text>\n");
    let bottom = grid.bottom();
    for number in 0..grid.numbers() {
        let round = number.saturating_add(1).saturating_mul(grid.stride());
        let x = grid.x(round);
        let line = Line::down(x, 28, bottom);
        writeln!(
            out,
            "<path d=\"{line}\" class=\"axis\"/><text x=\"{x}\" y=\"20\" text-anchor=\"middle\" class=\"number\">{round}</text>"
        );
    }
}

fn push_workers(out: &mut TextBuffer, grid: Grid) {
    let right = grid.right();
    for worker in 0..grid.workers {
        let y = grid.y(worker);
        let base = y.saturating_add(4);
        let line = Line::across(y, LEFT, right);
        writeln!(
            out,
            "<path d=\"{line}\" class=\"lane\"/><text x=\"12\" y=\"{base}\">worker {worker}</text>"
        );
    }
}

/// A straight line, which paths spell by its two points.
#[derive(Clone, Copy)]
pub struct Line {
    left: u64,
    top: u64,
    right: u64,
    bottom: u64,
}

impl Line {
    /// A line at this height.
    pub(crate) fn across(y: u64, left: u64, right: u64) -> Line {
        Line {
            left,
            top: y,
            right,
            bottom: y,
        }
    }

    /// A line at this distance from the left.
    fn down(x: u64, top: u64, bottom: u64) -> Line {
        Line {
            left: x,
            top,
            right: x,
            bottom,
        }
    }
}

impl fmt::Display for Line {
    fn fmt<W: fmt::Write>(&self, f: &mut fmt::Formatter<W>) -> fmt::Result {
        let Line {
            left,
            top,
            right,
            bottom,
        } = *self;
        write!(f, "M{left},{top} L{right},{bottom}")
    }
}

#[derive(Clone, Copy)]
pub struct Rectangle {
    pub x: u64,
    pub y: u64,
    pub width: u64,
    pub height: u64,
}

impl fmt::Display for Rectangle {
    fn fmt<W: fmt::Write>(&self, f: &mut fmt::Formatter<W>) -> fmt::Result {
        let Rectangle {
            x,
            y,
            width,
            height,
        } = *self;
        write!(
            f,
            "x=\"{x}\" y=\"{y}\" width=\"{width}\" height=\"{height}\""
        )
    }
}

/// A rectangle of a task, hatched as the task is.
pub(crate) fn push_rectangle(out: &mut TextBuffer, place: Rectangle, task: usize, class: &str) {
    let hue = hue_of(task);
    write!(out, "<rect {place} class=\"{class}c{hue}\"/>");
    let hatching = hatching_of(task);
    if hatching > 0 {
        write!(out, "<rect {place} fill=\"url(#h{hatching})\"/>");
    }
    out.push_str("\n");
}

/// Words of the smaller size.
pub(crate) fn push_words(out: &mut TextBuffer, x: u64, y: u64, words: &str) {
    writeln!(
        out,
        "<text x=\"{x}\" y=\"{y}\" class=\"label\">{words}</text>"
    );
}

/// A rectangle across the rounds of a stay.
fn place_of(grid: Grid, stay: Stay, y: u64, height: u64) -> Rectangle {
    Rectangle {
        x: grid.x(stay.from),
        y,
        width: grid.span(stay.to).saturating_sub(grid.span(stay.from)),
        height,
    }
}

/// A worker with a task in its hand: a pale box, which tells more where a pointer rests on it, with the task's path where there is room for it:
/// some seven pixels a byte.
fn push_stay(out: &mut TextBuffer, grid: Grid, name: &str, stay: Stay) {
    let y = grid.y(stay.worker).saturating_sub(STAY / 2);
    let place = place_of(grid, stay, y, STAY);
    let first = stay.from.saturating_add(1);
    let last = stay.to;
    let worker = stay.worker;
    writeln!(
        out,
        "<g><title>{name} on worker {worker}, rounds {first} to {last}</title>"
    );
    push_rectangle(out, place, stay.task, "box ");
    if (name.len() as u64).saturating_mul(7).saturating_add(6) <= place.width {
        push_words(out, place.x.saturating_add(4), y.saturating_add(11), name);
    }
    out.push_str("</g>\n");
}

fn push_stays(out: &mut TextBuffer, grid: Grid, scene: &Scene) {
    for stay in &scene.stays {
        if stay.from < stay.to
            && let Some(name) = scene.tasks.as_slice().get(stay.task)
        {
            push_stay(out, grid, name.as_str(), *stay);
        }
    }
}

/// Instructions in a row: full bars in the lower parts of the boxes.
fn push_works(out: &mut TextBuffer, grid: Grid, scene: &Scene) {
    for work in &scene.works {
        if !work.is_steal {
            let stay = work.stay;
            let y = grid.y(stay.worker).saturating_add(1);
            push_rectangle(out, place_of(grid, stay, y, WORK), stay.task, "");
        }
    }
}

/// The longest chain, work for work: a line below the bar, and down or up to it from what it had to wait for.
fn push_chain(out: &mut TextBuffer, grid: Grid, scene: &Scene) {
    for work in &scene.works {
        if work.is_critical {
            let stay = work.stay;
            let y = grid.chain_y(stay.worker);
            let from = grid.x(stay.from);
            let to = grid.x(stay.to);
            out.push_str("<path class=\"chain\" d=\"");
            if let Some(cause) = work.after {
                let way = Line {
                    left: grid.x(cause.round),
                    top: grid.chain_y(cause.worker),
                    right: from,
                    bottom: y,
                };
                write!(out, "{way} ");
            }
            let line = Line::across(y, from, to);
            writeln!(out, "{line}\"/>");
        }
    }
}

/// Steals: arrows from the row of the worker that ran the task last to the thief's.
fn push_thefts(out: &mut TextBuffer, grid: Grid, scene: &Scene) {
    for theft in &scene.thefts {
        if theft.victim != theft.thief {
            let x = grid.middle(theft.round);
            let from = grid.y(theft.victim);
            let thief = grid.y(theft.thief);
            let to = if theft.victim < theft.thief {
                thief.saturating_sub(STAY / 2)
            } else {
                thief.saturating_add(STAY / 2)
            };
            let line = Line::down(x, from, to);
            writeln!(
                out,
                "<circle cx=\"{x}\" cy=\"{from}\" r=\"3\" class=\"dot\"/><path d=\"{line}\" class=\"ink\" marker-end=\"url(#head)\"/>"
            );
        }
    }
}

/// Events that were not enabled: crosses.
fn push_misses(out: &mut TextBuffer, grid: Grid, scene: &Scene) {
    for miss in &scene.misses {
        if miss.worker < grid.workers {
            let x = grid.middle(miss.round);
            let y = grid.y(miss.worker);
            let falling = Line {
                left: x.saturating_sub(4),
                top: y.saturating_sub(4),
                right: x.saturating_add(4),
                bottom: y.saturating_add(4),
            };
            let rising = Line {
                top: falling.bottom,
                bottom: falling.top,
                ..falling
            };
            writeln!(out, "<path d=\"{falling} {rising}\" class=\"miss\"/>");
        }
    }
}

/// The end of the run, where it has ended: a line down.
fn push_end(out: &mut TextBuffer, grid: Grid, scene: &Scene) {
    if let Some(end) = scene.end {
        let x = grid.x(end);
        let bottom = grid.bottom();
        let base = bottom.saturating_add(14);
        let line = Line::down(x, 28, bottom);
        writeln!(
            out,
            "<path d=\"{line}\" class=\"ink\"/><text x=\"{x}\" y=\"{base}\" text-anchor=\"end\">the run ends</text>"
        );
    }
}

/// The picture of a run, as SVG, at most 4,000 pixels wide. A row is a worker; across go rounds, so that what could be done at once stands
/// side by side. A pale box says which task a worker has in its hand, a bar in it where it executes instructions; a task has one colour and
/// hatching throughout. An arrow is a steal, from the worker that ran the task last; a cross is an event that was not enabled; a red line is
/// the longest chain of events. Of a run with more rounds than there are pixels each column sums up: how high it is says how busy the worker
/// was, and its colour which task it worked for most.
///
/// # Errors
///
/// Memory was refused.
pub(crate) fn picture(alloc: Global, scene: &Scene) -> Result<String, AllocError> {
    let grid = Grid::of(scene);
    let mut out = TextBuffer::new(alloc);
    push_head(&mut out, grid);
    push_axis(&mut out, grid);
    push_workers(&mut out, grid);
    let mut summed = Ok(());
    if grid.is_exact() {
        push_stays(&mut out, grid, scene);
        push_works(&mut out, grid, scene);
        push_chain(&mut out, grid, scene);
        push_misses(&mut out, grid, scene);
        push_thefts(&mut out, grid, scene);
    } else {
        summed = push_summary(alloc, &mut out, grid, scene);
    }
    push_end(&mut out, grid, scene);
    push_legend(&mut out, grid, scene);
    out.push_str("</svg>\n");
    summed.and(out.finish())
}
