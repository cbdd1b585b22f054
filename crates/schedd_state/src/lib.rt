//! The schedd as a value: its claims, the runs under them, the jobs that an earlier boot of the
//! pool left, and what waits to be logged; what may be asked of it, and what is prepared for it
//! (HTCondor manual, "Job Scheduling" and "Policy Configuration for Submit Hosts").
#![tactic(auto)]

mod answer;
mod change;
mod due_checks;
mod looks;
mod new_look;
mod prepared;
mod run_numbers;
mod schedd;
mod search;

pub use answer::ScheddStep;
pub use change::{ClaimsChange, LeftChange, LooksChange, RunsChange, ScheddChange};
pub use new_look::NewLook;
pub use prepared::PreparedSchedd;
pub use schedd::Schedd;
pub use search::{first_free, under_jobs};
