//! A worker on a host's thread: its strand goes on outside of the board, until others wait or a stop is set.

ghost use Rattle.std.specs.Prelude.{◌≡◌};
ghost use Rattle.kernel_calls.specs.hosted.Hosted.{WorksFor};
ghost use Rattle.serial_machine.specs.Decoding.{IsCodeOf};
ghost use Rattle.shared_run.specs.Resting.{StaysPut};

use crate::hosted::stop::Stop;
use serial_machine::Decoded;
use shared_run::turns::{Habits, Hunger, turn};
use shared_run::{Bench, StrandRest, Verified};
use std::marker::Brand;
use std::sync::Arc;
use std::sync::atomic::{AtomicU64, Ordering};

/// What a worker hears of others while it goes on outside.
#[derive(Drop)]
pub(crate) struct Ears {
    /// Tells whether others wait for tasks.
    pub(crate) wanted: Arc<AtomicU64>,
    pub(crate) stop: Stop,
}

impl Hunger for Ears {
    fn is_there(&self) -> bool {
        self.wanted.load(Ordering::SeqCst) != 0
    }

    fn is_over(&self) -> bool {
        self.stop.is_set()
    }
}

/// A worker with its strand.
#[derive(Drop)]
pub struct HostedWorker {
    pub(crate) number: u8,
    pub(crate) strand: StrandRest,
    pub(crate) habits: Habits,
    pub(crate) ears: Ears,
}

/// Goes on outside of the board.
fn turn_as<L: Bench>(
    strand: StrandRest,
    verified: &Verified,
    code: &Decoded,
    habits: &mut Habits,
    ears: &Ears,
) -> StrandRest
    requires code { verified.now ≡ L.code }
    requires decoded { IsCodeOf verified.now code.now }
    requires rests { StaysPut verified.now strand }
    ensures { StaysPut L.code result }
{
    let mut strand = strand.wake::<L>(verified, code);
    turn(&mut strand, habits, ears);
    strand.rest()
}

impl HostedWorker {
    /// Its number, its strand, what it remembers, and what it hears.
    pub(crate) fn parts(self) -> (u8, StrandRest, Habits, Ears)
        ensures number { result.0 ≡ self.number }
        ensures strand { result.1 ≡ self.strand }
    {
        let HostedWorker {
            number,
            strand,
            habits,
            ears,
        } = self;
        (number, strand, habits, ears)
    }

    /// Goes on outside of the board, as long as nothing is wanted of it and the stop is not set.
    pub fn turn(self, verified: &Verified, code: &Decoded) -> HostedWorker
        requires works { WorksFor verified.now self }
        requires decoded { IsCodeOf verified.now code.now }
        ensures works { WorksFor verified.now result }
        ensures number { result.number ≡ self.number }
    {
        let HostedWorker {
            number,
            strand,
            mut habits,
            ears,
        } = self;
        let strand = turn_as::<Brand>(strand, verified, code, &mut habits, &ears);
        HostedWorker {
            number,
            strand,
            habits,
            ears,
        }
    }
}
