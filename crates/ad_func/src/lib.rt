//! The functions of the ClassAd language: `call` looks one up by name and gives its value.
//! What is proved of the whole table stands in `laws`.
#![tactic(auto)]

mod arguments;
mod function;
mod kinds;
pub mod laws;
mod lists;
mod numbers;
mod table;
mod texts;

pub use table::call;
