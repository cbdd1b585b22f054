//! Lines of cases: their fields, divided by tabs, and the escapes in a field.
#![tactic(auto)]

mod case;
mod error;
mod escapes;

pub use case::{Case, read_cases};
pub use error::CaseError;
pub use escapes::escape;
