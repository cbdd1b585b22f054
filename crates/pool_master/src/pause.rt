ghost use Rattle.std.specs.Prelude.{◌≡◌, ◌≤◌, ◌*◌, min};
ghost use Rattle.pool_master.specs.declared.pause.TheConstants.{LONGEST_PAUSE};

use std::sync::Wait;
use std::thread::Parker;
use std::time::Duration;

/// The first pause, in microseconds, so that a child that ends at once is seen at once.
const FIRST_PAUSE: u64 = 100;

/// The longest pause, in microseconds.
const LONGEST_PAUSE: u64 = 50_000;

/// The pauses between looks at a child: each is twice as long as the one before, up to the longest.
#[derive(Clone, Copy)]
pub(crate) struct Pause {
    // How long the next one is, in microseconds.
    next: u64,
    ghost short: { next ≤ LONGEST_PAUSE },
}

impl Pause {
    pub fn new() -> Pause
        ensures { result.next ≡ FIRST_PAUSE }
    {
        Pause { next: FIRST_PAUSE }
    }

    /// Gives up the processor for the length of the next pause, or less.
    pub fn wait<R: Wait>(&mut self, rt: &R)
        ensures { self.new.next ≡ min (2 * self.old.next) LONGEST_PAUSE }
    {
        Parker::new().park_timeout(rt, Duration::from_micros(self.next));
        self.next = (2 * self.next).min(LONGEST_PAUSE);
    }
}
