//! What cases answer of a pool of claims: accepted events, refusals, views and looks, as fields.
#![tactic(auto)]

mod answers;
mod looks;
mod refusals;
mod views;

pub use answers::write_answer;
pub use looks::{write_look, write_requests};
pub use refusals::write_refusal;
pub use views::write_view;
