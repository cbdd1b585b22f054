//! A clock that gives prepared readings.
ghost use Rattle.std.specs.Prelude.{◌≡◌, ◌≤◌, ◌↔◌, ℕ};
ghost use Rattle.pool_outer.specs.MemoryClock.{IsReading, nth_reading};

use super::{Clock, LAST_READING};
use std::sync::atomic::{AtomicU64, Ordering};

/// Gives the readings of a list, each once, and then the last one, a step of seconds later at each
/// further reading. No list counts as a list of 0, and no reading is above `LAST_READING`.
#[derive(Drop)]
pub struct MemClock {
    readings: Vec<u64>,
    step: u64,
    given: AtomicU64,
}

impl MemClock {
    pub fn new(readings: Vec<u64>, step: u64) -> MemClock
        ensures { (t : ℕ)
            → ⟦<MemClock as Clock>⟧.allows result t ↔ IsReading readings.items step t }
    {
        MemClock {
            readings,
            step,
            given: AtomicU64::new(0),
        }
    }

    fn nth(&self, n: u64) -> u64
        ensures value { result ≡ nth_reading self.now.readings.items self.now.step n }
        ensures in_range { result ≤ LAST_READING }
    {
        let last = self.readings.len().saturating_sub(1) as u64;
        let place = n.min(last);
        let reading = self.readings.get(place as usize).copied().unwrap_or(0);
        reading
            .saturating_add(self.step.saturating_mul(n - place))
            .min(LAST_READING)
    }
}

impl Clock for MemClock {
    ghost use Rattle.pool_outer.specs.MemoryClock.{IsReading};

    ghost allows = { λ c t. IsReading c.readings.items c.step t };

    fn read(&self) -> u64 {
        self.nth(self.given.fetch_add(1, Ordering::SeqCst))
    }
}
