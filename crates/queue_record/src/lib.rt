//! The text of the queue log (HTCondor manual, "The job queue log": `job_queue.log`): how a
//! transaction is written, what a line says, and which transactions the bytes of a log stand for.
#![tactic(auto)]

mod entry;
mod error;
mod key;
pub mod laws;
mod operations;
mod print;
mod reader;
mod stamp;
mod words;

pub use entry::{LogEntry, MAX_LINE, read_line};
pub use error::{PrintError, RecordError};
pub use print::{MAX_EXPRESSION, print_tx};
pub use reader::{ReadLog, Reader};
