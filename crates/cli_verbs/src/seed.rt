//! Two numbers that nobody who writes a text knows, with which its names are hashed (seed of the hash tables).

use std::io;
use std::random::RandomSource;

/// Numbers that whoever wrote a text does not know: names are hashed with them.
#[derive(Drop)]
pub struct Seed {
    pub low: u64,
    pub high: u64,
}

impl RandomSource for Seed {
    fn fill_bytes(&self, buf: &mut [u8]) -> io::Result<()> {
        let low = self.low.to_le_bytes();
        let high = self.high.to_le_bytes();
        for (place, byte) in buf.iter_mut().enumerate() {
            let source = if place % 16 < 8 { &low } else { &high };
            *byte = source[place % 8];
        }
        Ok(())
    }
}
