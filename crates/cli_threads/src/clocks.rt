//! How long ago something was, in microseconds (elapsed time).

use std::io;
use std::time::{Clock, Instant};

/// How long ago this was, in microseconds.
pub fn microseconds_since<T: Clock>(rt: &T, begun: Instant) -> io::Result<u64> {
    let took = begun.elapsed(rt)?;
    Ok(took.as_micros().min(u64::MAX as u128) as u64)
}
