//! What a request took, as `--time` prints it.

use cli_words::Times;
use std::fmt;

/// Microseconds, as seconds.
#[derive(Clone, Copy)]
struct Seconds(u64);

impl fmt::Display for Seconds {
    fn fmt<W: fmt::Write>(&self, f: &mut fmt::Formatter<W>) -> fmt::Result {
        let whole = self.0 / 1_000_000;
        let rest = self.0 % 1_000_000;
        write!(f, "{whole}.{rest:06} s")
    }
}

/// What each part of a request took, and how many instructions were done in a second.
#[derive(Clone, Copy)]
pub struct Took(pub Times);

impl fmt::Display for Took {
    fn fmt<W: fmt::Write>(&self, f: &mut fmt::Formatter<W>) -> fmt::Result {
        let times = self.0;
        let reading = Seconds(times.reading);
        let verifying = Seconds(times.verifying);
        let running = Seconds(times.running);
        let rate = times.instructions.saturating_mul(1_000_000) / times.running.max(1);
        write!(
            f,
            "reading {reading}, verifying {verifying}, running {running}, instructions a second {rate}"
        )
    }
}
