//! Texts of submit files and configurations: logical lines, macros, words of arguments.
#![tactic(auto)]

mod error;
mod expansion;
pub mod laws;
mod logical;
mod reference;
mod table;
mod words;
mod written;

pub use error::MacroError;
pub use expansion::{MAX_EXPANSION, expand};
pub use logical::{Line, LineList, lines};
pub use table::MacroTable;
pub use words::arg_words;
