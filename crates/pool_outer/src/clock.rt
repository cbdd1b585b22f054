ghost use Rattle.std.specs.Prelude.{◌≤◌, ℕ};

mod memory;
mod system;

pub use memory::MemClock;
pub use system::SystemClock;

/// The last reading: 9999-12-30 22:00:00 UTC, the end of the civil calendar in every zone.
pub const LAST_READING: u64 = 253_402_207_200;

/// A clock. A reading is in seconds since 1970-01-01 00:00:00 UTC; readings may fall.
pub trait Clock {
    /// Which readings this clock may give. Nothing else is known of a reading.
    ghost allows: { Self → ℕ → Type 0 };

    fn read(&self) -> u64
        ensures allowed { allows self.now result }
        ensures in_range { result ≤ LAST_READING };
}
