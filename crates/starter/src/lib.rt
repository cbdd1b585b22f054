//! The children of a machine's startd: each permit is spent once, and each run's ending stands on a
//! roll once.
#![tactic(auto)]

mod calls;
mod children;
mod given;
mod launcher;
pub mod laws;
mod threads;

pub use children::Child;
pub use given::{Fate, Given, LaunchError, Launched};
pub use launcher::Launcher;
