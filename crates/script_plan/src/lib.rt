//! Scripts: the orders that a user gives in the course of a run, the mails that are lost, repeated
//! or late, the crashes of daemons, and a large submission.
#![tactic(auto)]

mod entry;
mod error;
pub mod laws;
mod load_ads;
mod orders;
mod script;
mod storms;

pub use entry::{Crash, CrashList, Entry, Load, NumberList, WishList};
pub use error::ScriptError;
pub use load_ads::load;
pub use script::{Script, read};
pub use storms::{MAX_LOAD_JOBS, MAX_LOAD_NUMBER};
