ghost use Rattle.std.specs.Prelude.{◌≡◌, ◌≤◌, ◌<◌, ◌++◌, ℕ, List, Bool, true, length, take, IfOk, OnErr};
ghost use Rattle.pool_outer.specs.declared.sink.SinkError.TheVariants.{Failed};
ghost use Rattle.pool_outer.specs.Cause.{HasCause};

mod memory;
mod standard;

pub use memory::MemSink;
pub use standard::StdSink;
use std::fmt;
use thiserror::Error;

#[derive(Clone, Copy, PartialEq, Eq, Error)]
pub enum SinkError {
    #[error("the output failed")]
    Failed,
}

impl fmt::Debug for SinkError {
    fn fmt<W: fmt::Write>(&self, f: &mut fmt::Formatter<W>) -> fmt::Result {
        fmt::Display::fmt(self, f)
    }
}

/// An output.
pub trait Sink {
    /// How many calls have failed.
    ghost faults: { Self → ℕ };

    /// Whether it tells what was written.
    ghost tells: { Self → Bool };

    /// What was written.
    ghost written: { Self → List ℕ };

    /// Takes some of the bytes, from the first on, and says how many: at least one, where there are
    /// any.
    fn write(&mut self, bytes: &[u8]) -> Result<usize, SinkError>
        ensures count { IfOk result (λ n. n ≤ length bytes.now) }
        ensures progress { 0 < length bytes.now → IfOk result (λ n. 0 < n) }
        ensures taken { tells self.old ≡ true
            → IfOk result (λ n. written self.new ≡ written self.old ++ take n bytes.now) }
        ensures refused { tells self.old ≡ true
            → OnErr result (written self.new ≡ written self.old) }
        ensures told { tells self.new ≡ tells self.old }
        ensures cause { HasCause Failed (faults self.old) (faults self.new) result };
}
