//! A writer of the system as an output.
ghost use Rattle.std.specs.Prelude.{◌≡◌};

use super::{Sink, SinkError};
use crate::faults::count_fault;
use std::io::Write;

/// Writes to a writer, as to standard output. It tells nothing of what was written; a writer that
/// takes nothing has failed.
#[derive(Drop)]
pub struct StdSink<W: Write + Drop> {
    out: W,
    faults: u64,
}

impl<W: Write + Drop> StdSink<W> {
    pub fn new(out: W) -> StdSink<W>
        ensures { ⟦<StdSink<W> as Sink>⟧.faults result ≡ 0 }
    {
        StdSink { out, faults: 0 }
    }
}

impl<W: Write + Drop> Sink for StdSink<W> {
    ghost use Rattle.std.specs.Prelude.{false, []};

    ghost faults = { λ s. s.faults };

    ghost tells = { λ _. false };

    ghost written = { λ _. [] };

    fn write(&mut self, bytes: &[u8]) -> Result<usize, SinkError> {
        match self.out.write(bytes) {
            Ok(count) if count > 0 || bytes.is_empty() => Ok(count),
            _ => {
                count_fault(&mut self.faults);
                Err(SinkError::Failed)
            }
        }
    }
}
