//! The texts in which cases of daemons write what mails are made of (numbers, slots, states, ends,
//! causes, ads, lists of runs), and all fields of a case, one after the other.
#![tactic(auto)]

mod ad;
mod cut;
mod error;
mod field;
mod fields;
mod ids;
mod pair;
mod runs;
mod slot;
mod why;

pub use ad::{read_ad, write_ad};
pub use error::TextError;
pub use field::{interval_of, seconds_of};
pub use fields::Fields;
pub use ids::{
    read_claim, read_claim_no, read_job, read_number, read_run, read_signed, write_claim,
    write_claim_no, write_job, write_run,
};
pub use pair::{cue_of, pair_of, write_pair};
pub use runs::write_runs;
pub use slot::slot_id_of;
pub use why::{read_end, read_how, read_why, write_how, write_why};
