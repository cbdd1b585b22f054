//! What the orders, the matches and each event of a startd make of a pool, and the parts that the
//! events of all daemons share.
#![tactic(auto)]

mod begun;
mod growing;
mod limits;
mod master;
mod startds;

pub use begun::{Begun, nothing_asked};
pub use growing::{join, maybe_job, new_jobs};
pub use limits::{bytes_with, limited};
pub use master::{give_order, pass_matches};
pub use startds::{end_run, reboot_startd, receive_by_startd, tick_startd};
