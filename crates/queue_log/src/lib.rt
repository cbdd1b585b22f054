//! The queue log (HTCondor manual, "The job queue log": `job_queue.log`): the file to which a
//! schedd writes each transaction before it acknowledges it, and from which it recovers its queue.
#![tactic(auto)]

mod beside;
mod error;
mod log;
mod logged;
mod new_log;
mod read;
mod reattach;
mod recover;
mod same;

pub use error::LogError;
pub use log::{Halt, Log};
