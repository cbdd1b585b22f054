//! A machine's startd as a state machine: its slots, the claims that they offer and hold, and their
//! runs (HTCondor manual, "Policy Configuration for Execution Points").
#![tactic(auto)]

mod answer;
mod conclude;
mod due;
pub mod laws;
mod offers;
mod prepared;
mod secret;
mod startd;
mod tick;
mod ticks;

pub use answer::{Permit, RunList, StartdAnswer, StartdStep};
pub use due::is_tick_tried;
pub use prepared::PreparedStartd;
pub use secret::secret_of;
pub use startd::Startd;
pub use startd_slot::{Held, Mark, Rival, Running, Slot, SlotState};
