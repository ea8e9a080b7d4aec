//! The legend of a picture: what its signs mean.

use crate::pictures::grid::Grid;
use crate::pictures::scene::Scene;
use crate::pictures::svg::{Rectangle, push_rectangle, push_words};
use lists::TextBuffer;

/// The room below the rows.
pub const LEGEND: u64 = 64;

const EXACT: &str =
    "box: a task in a worker's hand · bar: instructions · arrow: a steal · cross: an event that was not enabled · red: the longest chain";

const SUMMED: &str =
    "height: how busy the worker was · colour: the task that it worked for most · dot: steals · red: the longest chain";

/// The first tasks, as many as there is room for, each by a small square in its looks and its path, and how many there are beside.
fn push_tasks(out: &mut TextBuffer, grid: Grid, tasks: &[String], y: u64) {
    let mut x = 12u64;
    for (task, name) in tasks.iter().enumerate() {
        let end = x.saturating_add((name.len() as u64).saturating_mul(7));
        if end.saturating_add(120) > grid.width() {
            let rest = tasks.len().saturating_sub(task);
            writeln!(
                out,
                "<text x=\"{x}\" y=\"{y}\" class=\"label\">and {rest} more</text>"
            );
            return;
        }
        let square = Rectangle {
            x,
            y: y.saturating_sub(10),
            width: 12,
            height: 12,
        };
        push_rectangle(out, square, task, "");
        push_words(out, x.saturating_add(17), y, name.as_str());
        x = end.saturating_add(36);
    }
}

/// The legend, below the rows.
pub(crate) fn push_legend(out: &mut TextBuffer, grid: Grid, scene: &Scene) {
    let words = if grid.is_exact() { EXACT } else { SUMMED };
    let first = grid.bottom().saturating_add(34);
    push_words(out, 12, first, words);
    push_tasks(out, grid, scene.tasks.as_slice(), first.saturating_add(20));
}
