//! The system's clock.
ghost use Rattle.std.specs.Prelude.{◌≤◌, IfSome};

use super::{Clock, LAST_READING};
use std::sync::atomic::{AtomicIn, Ordering, Rule};

/// The system's clock. Where it can't be read, or stands outside the range of readings, this is its
/// last good reading, at first 0.
#[derive(Drop)]
pub struct SystemClock<R: std::rt::Clock + Drop> {
    rt: R,
    last: AtomicIn<InRange>,
}

struct InRange;

impl Rule for InRange {
    ghost use Rattle.std.specs.Prelude.{◌≤◌};
    ghost use Rattle.pool_outer.specs.declared.clock.TheConstants.{LAST_READING};

    ghost invariant = { λ t. t ≤ LAST_READING };
}

impl<R: std::rt::Clock + Drop> SystemClock<R> {
    pub fn new(rt: R) -> SystemClock<R> {
        SystemClock {
            rt,
            last: AtomicIn::new(0),
        }
    }

    fn good_reading(&self) -> Option<u64>
        ensures { IfSome result (λ t. t ≤ LAST_READING) }
    {
        let reading = self.rt.since_1970().ok()?.as_secs();
        (reading <= LAST_READING).then_some(reading)
    }
}

impl<R: std::rt::Clock + Drop> Clock for SystemClock<R> {
    ghost use Rattle.std.specs.Prelude.{◌≤◌};
    ghost use Rattle.pool_outer.specs.declared.clock.TheConstants.{LAST_READING};

    ghost allows = { λ _ t. t ≤ LAST_READING };

    fn read(&self) -> u64 {
        match self.good_reading() {
            Some(reading) => {
                self.last.store(reading, Ordering::SeqCst);
                reading
            }
            None => self.last.load(Ordering::SeqCst),
        }
    }
}
