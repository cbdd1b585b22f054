//! An ordered map whose entries are made beforehand, each with its memory: so the map itself
//! changes without any, and no change can fail.
#![tactic(auto)]

mod map;
mod search;
mod tree;

pub use map::{NewEntry, OrderedMap};
