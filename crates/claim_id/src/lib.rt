//! The numbers of jobs, slots, claims and runs, the texts of claims and jobs, and the orders that a
//! user gives of jobs.
//!
//! The states and activities of a slot, and the cues that lead from one to another.
#![tactic(auto)]

mod claim_text;
mod job_text;
pub mod laws;
mod number;
mod numbers;
mod order;
mod pair;
pub mod slot_laws;
mod table;

pub use claim_text::NotAClaim;
pub use job_text::NotAJob;
pub use numbers::{ClaimId, ClaimNo, JobId, RunNo, SlotId, boot_number};
pub use order::{Verb, Wish};
pub use pair::{Cue, Pair};
pub use table::next;
