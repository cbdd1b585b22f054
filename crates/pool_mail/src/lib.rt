//! What the daemons of a pool send each other, and what the mails speak of: how slots stand, what
//! jobs ask for, matches, ends of runs and refusals; and the seconds that a pool is set to.
#![tactic(auto)]

mod ad;
mod end;
pub mod laws;
mod mail;
mod matching;
mod receivers;
mod settings;
mod slot_ad;
mod why;

pub use ad::{owner_of, request_ad};
pub use end::{End, Ending, How};
pub use mail::{Mail, MailList};
pub use matching::{Match, MatchList, Request, RequestList};
pub use settings::{MAX_SECONDS, Settings};
pub use slot_ad::{SlotAd, SlotAdList};
pub use why::Why;
