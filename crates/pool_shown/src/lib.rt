//! The startds of a pool, what is read of all their slots, and the abstract pool that a pool's
//! queue, its finished jobs and its slots show.
#![tactic(auto)]

mod ads;
mod claimed;
mod cores;
mod finished;
mod jobs;
mod machines;
mod runs;
mod slots;
mod states;
mod told;

pub use cores::core_ad;
pub use jobs::shown_jobs;
pub use machines::Machines;
pub use slots::{ShownSlots, shown_slots};
pub use states::state_of_ad;
