//! User priorities, which follow what each user has in use (HTCondor manual, User Priorities).
//!
//! The collector: the last ad that each slot sent, for as long as it is fresh (HTCondor manual, The
//! Collector Daemon).
//!
//! The pie spin: which requests get which slots, where each request looks at every slot (HTCondor
//! manual, The Negotiation Cycle and The Layperson's Description of the Pie Spin and Pie Slice).
#![tactic(auto)]

mod account_error;
mod accountant;
mod bidding;
mod choosing;
mod collector;
mod course;
mod error;
mod kept;
pub mod laws;
mod offering;
mod opening;
mod plain;
mod priority;
pub mod priority_laws;
mod snapshot;
mod spinning;
mod standing;
mod table;

pub use account_error::PriorityError;
pub use accountant::{Accountant, MAX_USERS};
pub use bidding::{is_below_ceiling, under_ceiling};
pub use choosing::{choice_order, is_unmatched, match_of};
pub use collector::Collector;
pub use course::{Account, Bidder, Made};
pub use error::CollectorError;
pub use kept::{KeptAd, MAX_NAMES};
pub use offering::{Offering, fits, is_offered, rank_of_slot};
pub use opening::bidders_of;
pub use plain::{matches_of, plain_cycle};
pub use priority::{BEST, SLOT, WORST};
pub use snapshot::{Holder, Offer, OfferList, Snapshot, Submitter, SubmitterList};
pub use spinning::{greater, share, unmatched, weight};
pub use standing::{MAX_FACTOR, MAX_SLOTS, NEW_FACTOR, Standing};
