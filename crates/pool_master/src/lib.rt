//! The run of a pool, from the command's words to the printed user log.
#![tactic(auto)]

pub mod laws;
mod output;
mod pause;
mod play;
mod run;
mod system;
mod user_log;

pub use pool_input::{Kind, Status};
pub use run::{MACHINES, Ran, run_pool};
pub use system::idle_spawners;
