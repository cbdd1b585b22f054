//! Expressions as trees, and ads: attributes in order, found by their names without ASCII case.
#![tactic(auto)]

mod ad;
pub mod laws;
mod name;
mod operator;
mod places;
mod shared;
mod table;
mod threads;
mod tree;

pub use ad::{Ad, AdList, MAX_ATTRIBUTES, SetError};
pub use operator::{BinOp, Scope, UnOp};
pub use tree::{Expr, ExprList, Rest, RestList};
