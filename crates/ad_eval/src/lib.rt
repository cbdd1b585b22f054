//! The evaluator of ClassAd expressions over two ads, and the match of a job and a slot. What is
//! proved of every match stands in `laws`.
#![tactic(auto)]

mod arithmetic;
mod evaluation;
mod judging;
pub mod laws;
mod logic;
mod mismatch;
mod operators;
mod progress;
mod sides;
mod steps;

pub use evaluation::{eval, holds, holds_expr, rank};
pub use judging::{Judged, judge, matches};
pub use mismatch::{FoundMatch, NoMatch, none_match};
pub use steps::Steps;
