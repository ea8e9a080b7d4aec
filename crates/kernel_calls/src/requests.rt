//! What a host asks of runs: arguments and fuel, of one run, of runs over rows, and of a run on its own threads.

/// Of a serial run: the arguments of `main`, and the most instructions that it may do.
#[derive(Clone, Copy)]
pub struct RunRequest<'a> {
    pub arguments: &'a [i64],
    pub fuel: u64,
}

/// Of runs over rows: the arguments of all of them, how many of these and of the cells each run has, and the fuel of each.
#[derive(Clone, Copy)]
pub struct RowsRequest<'a> {
    pub arguments: &'a [i64],
    pub arguments_each: usize,
    pub cells_each: usize,
    pub fuel: u64,
}

/// Of a run on threads.
#[derive(Clone, Copy)]
pub struct BoardRequest<'a> {
    pub arguments: &'a [i64],
    pub workers: usize,
    pub fuel: u64,
}
