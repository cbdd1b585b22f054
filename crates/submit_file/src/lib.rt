//! Submit files: the ads of the jobs that a file asks for, each by what the lines before its queue
//! statement have set.
#![tactic(auto)]

mod copies;
mod draft;
mod error;
mod file;
mod item_macros;
pub mod laws;
mod macros;
mod plan;
mod setting;
mod source;
mod statement;

pub use error::{MAX_JOBS, SubmitError};
pub use file::jobs;
pub use macros::expand_at;
pub use plan::Plan;
pub use setting::{LinesSoFar, Setting, Settings};
pub use statement::{Heading, Statement};
