//! The desk by which daemons reach the pool: what is given to it, what it answers, and what each
//! holder of a pass knows of its own events; and, as laws, what these say of the pool.
//!
//! A desk with one holder, whose pass has the pool.
#![tactic(auto)]

mod desk;
mod entry;
pub mod laws;
mod pass;
mod sole;
pub mod sole_laws;
pub mod standing;

pub use desk::Desk;
pub use entry::{Entry, EntryList, Sort, number_of, sort_of};
pub use pass::SolePass;
pub use sole::SoleDesk;
