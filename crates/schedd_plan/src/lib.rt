//! What a schedd logs: plans for jobs, and the transactions that are made of them. What it reads of
//! a job's ad (HTCondor manual, Job ClassAd Attributes).
//!
//! The tables of a schedd: where a job stands, what is planned of it at an order and at the end of
//! a run, what becomes of a mail, and what is due of a run and of a claim (HTCondor manual, "Job
//! Scheduling" and "Policy Configuration for Submit Hosts").
#![tactic(auto)]

mod claims;
mod ended;
mod left;
mod mail;
mod ops;
mod orders;
mod places;
mod plan;
mod reading;
mod reason;
mod runs;
mod status;
mod tick;

pub use claims::{KeptClaim, Stage, engages, place_of_claim, remove_claim, set_job, set_stage};
pub use ended::ended_plan;
pub use left::LeftJobs;
pub use mail::{
    Fate, MailRow, denied_row, fate_of_gone, granted_row, matched_row, order_row, settle_claim,
};
pub use orders::{can_be_held, hold_plan, is_waiting, remove_plan, resume_plan};
pub use places::{JobPlace, ad_of, is_left, job_place, let_go};
pub use plan::{Completion, JobPlan};
pub use reading::{lease_until, natural, natural_at, reason_of, run_number, status_of};
pub use reason::Reason;
pub use runs::{KeptRun, add_run, is_before, place_of_job, place_of_run, remove_run, set_alive};
pub use status::JobStatus;
pub use tick::{
    ClaimLine, RunLine, TickLine, claim_line, due_claim, due_run, is_after, lease_end, run_line,
};
