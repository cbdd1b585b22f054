//! One slot of a machine: the claims that it offers and holds and its runs, and what a mail or the
//! end of a run makes of it (HTCondor manual, "Policy Configuration for Execution Points").
#![tactic(auto)]

mod ask;
mod ending;
mod held;
pub mod laws;
mod mails;
mod reaction;
mod run_mails;
mod slot;

pub use ending::react_to_end;
pub use held::{Held, Mark, Rival, Running};
pub use mails::{claim_of, is_judged, react};
pub use reaction::{Reaction, Task};
pub use slot::{Slot, SlotState, is_open};
