//! The text of expressions and ads: what a text says, and the canonical text of an expression.
#![tactic(auto)]

mod ad_text;
mod error;
mod expression;
mod first_tokens;
pub mod laws;
mod levels;
mod parse;
mod print;
mod size;

pub use ad_text::parse_ad;
pub use error::{AdError, ParseError};
pub use expression::parse_expr;
pub use print::print_expr;
pub use size::printed_size;
