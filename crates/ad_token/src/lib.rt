//! The tokens of an expression's text.
#![tactic(auto)]

mod blanks;
pub mod laws;
mod lexer;
mod marks;
mod names;
mod numbers;
mod strings;
mod token;

pub use blanks::{past_blanks, trimmed_text};
pub use lexer::{is_blank, tokens};
pub use names::{MAX_NAME, is_name, name_length};
pub use token::{Bracket, Placed, Token};
