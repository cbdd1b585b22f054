//! An output in memory.
ghost use Rattle.std.specs.Prelude.{◌≡◌, ◌+◌, ◌-◌, ◌^◌, ◌++◌, [], length, min, IfOk, IsErr, OnErr, OnOk};
ghost use Rattle.pool_outer.specs.declared.sink.SinkError.TheVariants.{Failed};
ghost use Rattle.pool_outer.specs.Cause.{HasCause};

use super::{Sink, SinkError};
use crate::faults::count_fault;
use std::alloc::Global;

/// Keeps what was written. One of its calls may fail, by its number from 0; running out of memory
/// counts as a fault.
#[derive(Drop)]
pub struct MemSink {
    bytes: Vec<u8>,
    calls: u64,
    fails: Option<u64>,
    faults: u64,
}

impl MemSink {
    ghost use Rattle.pool_outer.specs.MemoryParts.{failing_write, write_count};

    pub fn new(alloc: Global, fails: Option<u64>) -> MemSink
        ensures written { ⟦<MemSink as Sink>⟧.written result ≡ [] }
        ensures count { write_count result ≡ 0 }
        ensures fails { failing_write result ≡ fails }
        ensures faults { ⟦<MemSink as Sink>⟧.faults result ≡ 0 }
    {
        MemSink {
            bytes: Vec::new(alloc),
            calls: 0,
            fails,
            faults: 0,
        }
    }

    pub fn bytes(&self) -> &[u8]
        ensures { result.now ≡ ⟦<MemSink as Sink>⟧.written self.now }
    {
        self.bytes.as_slice()
    }
}

impl Sink for MemSink {
    ghost use Rattle.std.specs.Prelude.{true};
    ghost use Rattle.pool_outer.specs.MemoryParts.{failing_write, sink_faults, write_count, written_to};

    ghost faults = { λ s. s.faults };

    ghost tells = { λ _. true };

    ghost written = { λ s. s.bytes.items };

    fn write(&mut self, bytes: &[u8]) -> Result<usize, SinkError>
        // The call is counted, and fails where it was told to.
        ensures count { write_count self.new ≡ min (write_count self.old + 1) (2 ^ 64 - 1) }
        ensures kept { failing_write self.new ≡ failing_write self.old }
        ensures fails { failing_write self.old ≡ Some (write_count self.old) → IsErr result }

        // It takes all or nothing.
        ensures whole { IfOk result (λ n. n ≡ length bytes.now) }
        ensures taken { OnOk result (written_to self.new ≡ written_to self.old ++ bytes.now) }
        ensures refused { OnErr result (written_to self.new ≡ written_to self.old) }
        ensures cause { HasCause Failed (sink_faults self.old) (sink_faults self.new) result }
    {
        let call = self.calls;
        self.calls = call.saturating_add(1);
        if self.fails == Some(call) || self.bytes.extend_from_slice(bytes).is_err() {
            count_fault(&mut self.faults);
            return Err(SinkError::Failed);
        }
        Ok(bytes.len())
    }
}
