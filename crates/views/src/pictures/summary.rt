//! A long run, summed up: a column is many rounds of a worker.

use crate::pictures::grid::{Grid, STAY};
use crate::pictures::scene::{Scene, Theft, Work};
use crate::pictures::svg::{Line, Rectangle, push_rectangle};
use lists::TextBuffer;
use std::alloc::{AllocError, Global};

/// The width of a column, in pixels.
const COLUMN: u64 = 4;

/// The most columns of a row.
const COLUMNS: u64 = 970;

/// What a worker did in the rounds of a column.
#[derive(Clone, Copy)]
struct Column {
    busy: u64,
    /// The task of its longest part, and how long that is.
    task: usize,
    longest: u64,
    steals: u64,
    is_critical: bool,
}

const EMPTY: Column = Column {
    busy: 0,
    task: 0,
    longest: 0,
    steals: 0,
    is_critical: false,
};

/// The columns of all workers, row after row.
#[derive(Drop)]
struct Table {
    columns: Vec<Column>,
    /// The rounds of a column, at least 1.
    rounds: u64,
}

impl Table {
    fn column(&mut self, worker: usize, number: u64) -> Option<&mut Column> {
        if number >= COLUMNS {
            return None;
        }
        let row = worker.saturating_mul(COLUMNS as usize);
        let place = row.saturating_add(number as usize);
        self.columns.as_mut_slice().get_mut(place)
    }

    /// The part of a work that lies in the column.
    fn add_part(&mut self, work: &Work, number: u64) {
        let start = number.saturating_mul(self.rounds);
        let end = start.saturating_add(self.rounds);
        let stay = work.stay;
        let part = stay.to.min(end).saturating_sub(stay.from.max(start));
        let Some(column) = self.column(stay.worker, number) else {
            return;
        };
        column.busy = column.busy.saturating_add(part);
        column.is_critical = column.is_critical || work.is_critical;
        if part > column.longest {
            column.longest = part;
            column.task = stay.task;
        }
    }

    fn add_work(&mut self, work: &Work) {
        let rounds = self.rounds.max(1);
        let first = work.stay.from / rounds;
        let last = work.stay.to.saturating_sub(1) / rounds;
        for number in first..=last.min(COLUMNS) {
            self.add_part(work, number);
        }
    }

    fn add_theft(&mut self, theft: &Theft) {
        let number = theft.round.saturating_sub(1) / self.rounds.max(1);
        if let Some(column) = self.column(theft.thief, number) {
            column.steals = column.steals.saturating_add(1);
        }
    }
}

/// How high a bar is, of so many rounds of all.
fn height_of(busy: u64, rounds: u64) -> u64 {
    let scaled = busy.min(rounds).saturating_mul(STAY);
    (scaled / rounds.max(1)).max(1)
}

/// The signs of a column that stands here.
fn push_signs(out: &mut TextBuffer, grid: Grid, worker: usize, x: u64, column: &Column) {
    if column.is_critical {
        let line = Line::across(grid.chain_y(worker), x, x.saturating_add(COLUMN));
        writeln!(out, "<path class=\"chain\" d=\"{line}\"/>");
    }
    if column.steals > 0 {
        let y = grid.y(worker).saturating_sub(STAY / 2 + 3);
        let middle = x.saturating_add(COLUMN / 2);
        let steals = column.steals;
        writeln!(
            out,
            "<circle cx=\"{middle}\" cy=\"{y}\" r=\"1.5\" class=\"dot\"><title>{steals} steals</title></circle>"
        );
    }
}

fn push_column(out: &mut TextBuffer, grid: Grid, place: usize, column: &Column, rounds: u64) {
    let columns = COLUMNS as usize;
    let worker = place / columns;
    let number = (place % columns) as u64;
    let x = grid.x(number.saturating_mul(rounds));
    if column.busy > 0 {
        let height = height_of(column.busy, rounds);
        let bar = Rectangle {
            x,
            y: grid
                .y(worker)
                .saturating_add(STAY / 2)
                .saturating_sub(height),
            width: COLUMN,
            height,
        };
        push_rectangle(out, bar, column.task, "");
    }
    push_signs(out, grid, worker, x, column);
}

/// A run with more rounds than there are pixels.
pub(crate) fn push_summary(
    alloc: Global,
    out: &mut TextBuffer,
    grid: Grid,
    scene: &Scene,
) -> Result<(), AllocError> {
    let count = grid.workers.saturating_mul(COLUMNS as usize);
    let mut table = Table {
        columns: vec![in alloc; EMPTY; count]?,
        rounds: (scene.rounds / COLUMNS).saturating_add(1),
    };
    for work in &scene.works {
        table.add_work(work);
    }
    for theft in &scene.thefts {
        table.add_theft(theft);
    }
    for (place, column) in table.columns.as_slice().iter().enumerate() {
        push_column(out, grid, place, column, table.rounds);
    }
    Ok(())
}
