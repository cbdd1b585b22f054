//! A list that only grows, whose receipts are proof to any thread that an item stands in it.
#![tactic(auto)]

mod error;
mod growth;
pub mod laws;
mod receipt;
mod roll;
mod rule;
mod scribe;
mod steps;
mod threads;

pub use error::RollError;
pub use receipt::{Mark, Receipt};
pub use roll::{MAX_ITEMS, Roll};
