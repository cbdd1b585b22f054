//! The pool: every event that it accepts, and what it answers.
#![tactic(auto)]

mod daemons;
mod events;
mod happening;
mod history;
pub mod laws;
mod pool;

pub use history::{Faults, History, Step, StepList};
pub use pool::Pool;
