//! Parts of a pool: what happens in it and what is answered; its jobs, and those that have left
//! its queue; the printed bytes of its ads, and how many a transaction adds; submissions; the
//! unfinished transaction, and which receipt is its; which transactions a log takes over a queue.
#![tactic(auto)]

mod allow;
mod answer;
mod asking;
mod clusters;
mod event;
mod events;
mod finished;
mod growth;
pub mod laws;
mod listing;
mod look;
mod mails;
mod numbers;
mod pending;
mod queue;
mod receipts;
mod requests;
mod same;
mod size;
mod submission;
mod touched;

pub use allow::{Allow, DaemonList};
pub use answer::{Answer, Kept, Stepped};
pub use asking::is_request_of;
pub use clusters::{LAST_CLUSTER, next_cluster};
pub use event::{EndingReceipts, Event, JudgedList};
pub use events::event_size;
pub use finished::{Finished, FinishedJob, is_finished};
pub use growth::Growth;
pub use listing::{jobs_of_kind, next_job};
pub use look::Look;
pub use mails::mails_size;
pub use numbers::go_over_numbers;
pub use pending::{Pending, Unfinished, leaving_job, ordered_job};
pub use queue::queue_size;
pub use receipts::{kept_refusal, receipt_refusal, still_pending};
pub use requests::requests_of;
pub use same::is_same_tx;
pub use size::{MAX_BYTES, ad_size};
pub use submission::submission_tx;
