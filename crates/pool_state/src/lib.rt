//! The pool as a value: what its daemons, mails and jobs are, how it opens, what is read of it,
//! which abstract pool it stands for, and a copy of it.
#![tactic(auto)]

mod copy;
mod opening;
mod reading;
mod state;
mod view;

pub use opening::{
    LAST_POOL_BOOT, MAX_JOBS, MAX_MACHINES, MAX_SLOTS, Opening, count_jobs, count_machines,
};
pub use state::{Counts, PoolState};
