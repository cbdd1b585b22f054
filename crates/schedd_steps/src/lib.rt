//! What each event of the schedd makes of a pool.
#![tactic(auto)]

mod logged;
mod logging;
mod schedd;

pub use logged::{reopen_schedd, take_logged};
pub use schedd::{check, receive_by_schedd, tick_schedd};
