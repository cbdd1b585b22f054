//! The small data that every other crate speaks of: values, texts, and lists that contracts see as
//! lists; and the names of the attributes of ads.
#![tactic(auto)]

mod copied;
pub mod limits;
mod literal;
mod memory;
mod name;
pub mod names;
mod number;
mod order;
mod seq;
mod text;
mod truth;
mod user_number;
mod value;

pub use copied::{Copied, copy_items};
pub use literal::write_item_separator;
pub use memory::Memory;
pub use name::same_name;
pub use number::number_in;
pub use order::{Order, fold_cmp, fold_eq};
pub use seq::Seq;
pub use text::{Text, TextList};
pub use truth::Truth;
pub use user_number::{UserNumber, UserNumberList};
pub use value::{Value, ValueList};
