//! The abstract pool: what a pool promises of its jobs and runs, without messages, logs or pending
//! work; its steps; and when it is safe. `View` is one as data.
//!
//! The protocol of a pool: what its daemons tell one another, and, as laws alone, why that keeps
//! the pool safe.
#![tactic(auto)]

mod job;
pub mod laws;
mod mark;
pub mod protocol_laws;
pub mod rows;
mod run;
mod safe;
mod same;
pub mod slots;
mod view;

pub use job::{Entry, JobEntry, JobEntryList, JobIdList, Outcome, State};
pub use mark::{HeldClaim, MarkEntry, MarkEntryList, SlotMark};
pub use run::{EndReport, EndReportList, Run, RunList};
pub use view::{SlotEntry, SlotEntryList, View};
