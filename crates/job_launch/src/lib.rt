//! What a job is started with, of its ad.
#![tactic(auto)]

mod launch;
pub mod laws;

pub use launch::launch_of;
