//! What a run reads before its pool begins: the configuration and the submit files that its words
//! name; and the statuses that a run ends with.
//!
//! The words of the command: their form, tested exactly, the files that clap reads in them, and
//! what a lone word asks for.
#![tactic(auto)]

mod command;
mod fault;
mod files;
mod form;
mod input;
mod question;
mod status;
mod submitting;
mod words;

pub use files::MOST_BYTES;
pub use input::load;
pub use question::{Question, lone_question, print_answer};
pub use status::{Kind, Status};
pub use words::{Named, WordsError, read};
