//! The rules of a pool: why it doesn't accept an event, and which matches are live; and, as
//! definitions alone, what every event that it accepts makes of it.
//!
//! And laws: what ties the parts of a pool to the protocol of its daemons, that every event keeps
//! it, and so that every event that a pool accepts keeps it safe.
#![tactic(auto)]

pub mod appends;
mod asked;
pub mod counts;
pub mod histories;
mod judging;
pub mod linked_pools;
pub mod linked_schedd;
pub mod linked_startds;
pub mod pools;
mod quiet;
mod refusal;
pub mod schedd;
pub mod startds;

pub use judging::is_live;
pub use refusal::{MAX_EVENTS, refusal_of};
