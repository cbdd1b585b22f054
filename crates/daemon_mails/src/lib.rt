//! The texts of mails, and of what is to be launched, in cases of daemons.
#![tactic(auto)]

mod launch;
mod reading;
mod words;
mod writing;

pub use launch::write_launch;
pub use reading::{mail_of, read_mail};
pub use writing::{write_mail, write_mails};
