//! A pool of slots and jobs, judged by their ads: what happens in it, what it answers, and its
//! history.
#![tactic(auto)]

mod ads;
mod answer;
mod course;
mod event;
mod history;
mod job;
mod jobs;
pub mod laws;
mod next;
mod pool;
mod runs;
mod slot;

pub use answer::{Answer, Kept, StepError, Stepped};
pub use course::Course;
pub use event::Event;
pub use history::{History, Step, StepList};
pub use job::{Job, LAST_CLUSTER_WITHOUT_JOBS, MAX_JOBS, Phase, SlotRun};
pub use next::{Next, Pair};
pub use pool::Pool;
pub use slot::{PoolSlot, PoolSlotList, are_numbered_once};
