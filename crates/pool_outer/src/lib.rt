//! The outside of a pool: traits for its files, its clock, its child programs, its output and its
//! gate, each with a form in memory and the real one.
#![tactic(auto)]

mod clock;
mod failing;
mod faults;
mod gate;
pub mod laws;
mod limit;
mod sink;
mod spawner;
mod store;

pub use clock::{Clock, LAST_READING, MemClock, SystemClock};
pub use failing::FailingCalls;
pub use faults::count_fault;
pub use gate::{Daemon, Gate, OpenGate, Point};
pub use limit::Which;
pub use sink::{MemSink, Sink, SinkError, StdSink};
pub use spawner::{
    ChildEnd, ChildSpawner, ChildState, FailingSpawns, Launch, MemSpawner, Script, SpawnError,
    Spawner, SureSpawner,
};
pub use store::{Store, StoreError};
