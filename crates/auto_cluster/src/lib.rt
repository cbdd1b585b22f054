//! Autoclusters: which attributes of a job can influence a match, and which jobs agree in them
//! (HTCondor manual, significant attributes and autoclusters).
#![tactic(auto)]

mod clusters;
mod finding;
pub mod laws;
mod links;
mod parts;
mod reaching;
mod references;

pub use clusters::{Clusters, significant};
pub use links::Link;
