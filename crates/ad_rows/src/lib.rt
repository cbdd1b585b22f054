//! Ads made from rows: names of attributes, and what each is set to. What a job asks of a machine.
//!
//! Numbers by which attributes of ads are told apart: equal attributes have the same one, and
//! others hardly ever.
//!
//! What is asked of the ads of jobs that are submitted.
#![tactic(auto)]

mod attribute;
mod expression;
pub mod laws;
mod operators;
mod requests;
mod rows;
pub mod submitted_laws;

pub use attribute::attribute_digest;
pub use requests::{enough, with_enough};
pub use rows::{Given, Row, ad_of};

/// How many attributes a job may have beside those that the pool sets.
pub const MAX_OWN_ATTRIBUTES: usize = 248;
