//! The negotiation cycle in which one request of each autocluster is judged, and what holds of each
//! cycle (HTCondor manual, The Negotiation Cycle; Raman, Livny and Solomon, "Matchmaking", 1998).
#![tactic(auto)]

mod grouping;
pub mod laws;
mod parties;
mod quick;

pub use grouping::{Clustered, Kept};
pub use parties::Party;
pub use quick::cycle;
