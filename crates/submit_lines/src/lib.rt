//! The lines of a submit file, apart from macros: what a line sets, what a queue statement asks
//! for, and the forms of values.
//!
//! What the commands of a submit file give, once their macros are replaced: attributes, and the ad
//! of a job that they make.
#![tactic(auto)]

mod amount;
mod arguments;
mod command;
mod cut;
mod error;
mod expressions;
mod items;
mod job_ad;
mod line;
mod name;
mod number;
mod queue;
mod value;

pub use amount::{Amount, AmountUnit, read_amount};
pub use arguments::{plain_arguments, quoted_arguments};
pub use command::Command;
pub use error::ValueError;
pub use expressions::{expression, string_expression};
pub use job_ad::JobAd;
pub use line::{LineFault, SubmitLine, read_line};
pub use name::is_built_in;
pub use number::{decimal, integer};
pub use queue::{Over, Queue, read_queue};
