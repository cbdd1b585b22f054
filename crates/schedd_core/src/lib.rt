//! What each event makes of a schedd, over the queue as logged: a mail, a tick, a look at the
//! periodic expressions of a job, a plan that was logged, and its coming back (HTCondor manual,
//! "Job Scheduling" and "Policy Configuration for Submit Hosts").
#![tactic(auto)]

mod checks;
pub mod laws;
mod logging;
mod mails;
mod reopened;
mod ticks;

pub use checks::{check, prepare_check};
pub use logging::{logged, prepare_logged};
pub use mails::{prepare_receive, receive};
pub use reopened::{prepare_reopen, reopen};
pub use ticks::{prepare_tick, tick};
