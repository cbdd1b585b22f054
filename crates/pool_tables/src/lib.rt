//! The tables of a pool, each by itself: which daemons are up, all mails ever sent, and the orders
//! of the input. What each table refuses of an event.
#![tactic(auto)]

mod copies;
mod daemons;
mod links;
mod mails;
mod orders;
mod refusal;
mod repeats;
mod sent;
mod states;

pub use daemons::Daemons;
pub use mails::Mails;
pub use orders::{GivenWish, Orders, order_mail};
pub use refusal::{MailError, StepError, Unquiet};
pub use sent::Sent;
pub use states::DaemonState;
