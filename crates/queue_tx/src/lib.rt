//! The job queue as a map from keys to ads, and the transactions that change it (HTCondor manual,
//! "The job queue log": `job_queue.log`).
#![tactic(auto)]

mod asked;
mod error;
mod kept;
mod key;
mod kind;
pub mod laws;
mod names;
mod op;
mod periodic;
mod prepared;
mod queue;
mod request;
mod room;
mod tx;

pub use error::ApplyError;
pub use key::Key;
pub use kind::{JobKind, kind_of};
pub use names::{MAX_OWN_OF_HEADER, MAX_OWN_OF_PROC, MOVING, NEXT_CLUSTER_NUM, NEXT_RUN_NUM};
pub use op::Op;
pub use periodic::has_periodic;
pub use prepared::Prepared;
pub use queue::Queue;
pub use request::makes_same_request;
pub use room::lacks_room;
pub use tx::{Tx, TxList};
