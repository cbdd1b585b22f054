// Rows, and the ads of rows.

ghost use Rattle.std.specs.Prelude.{◌≡◌, ◌<◌, ◌≤◌, ◌^◌, [], ℕ, IfOk, All, length};
ghost use Rattle.ad_tree.specs.Tree.{tree};
ghost use Rattle.ad_rows.specs.Rows.{given_tree, with_rows};

use crate::requests::{enough, reference_to};
use ad_tree::{Ad, Expr, MAX_ATTRIBUTES, Scope};
use ad_value::{Memory, Text, Value};
use std::alloc::Global;

/// What an attribute is set to.
#[derive(Clone, Copy)]
pub enum Given<'a> {
    /// An integer below 2^63.
    Integer(u64),
    /// A string.
    Text(&'a str),
    Truth(bool),
    /// The value of another attribute, by its bare name.
    Name(&'a str),
    /// An equal expression.
    Expression(&'a Expr),
    /// That the other ad has as much as this one asks for, as `enough` says it.
    Enough,
}

/// An attribute's name, and what it is set to.
pub type Row<'a> = (&'a str, Given<'a>);

/// The ad with the rows of a table, set one after the other. Computes in O(size).
pub fn ad_of(alloc: Global, rows: &[Row<'_>]) -> Result<Ad, Memory>
    requires few { length rows.now ≤ MAX_ATTRIBUTES }
    requires in_range { All (λ r. (n : ℕ) → r.1 ≡ Given.Integer n → n < 2 ^ 63) rows.now }
    ensures { IfOk result (λ a. a ≡ with_rows rows.now []) }
{
    let mut ad = Ad::new(alloc);
    for (name, given) in rows {
        let expr = expr_of(alloc, *given)?;
        if ad.set(alloc, name, expr).is_err() {
            return Err(Memory);
        }
    }
    Ok(ad)
}

fn expr_of(alloc: Global, given: Given<'_>) -> Result<Expr, Memory>
    requires { (n : ℕ) → given ≡ Given.Integer n → n < 2 ^ 63 }
    ensures { IfOk result (λ e. tree e ≡ given_tree given.entry) }
{
    match given {
        Given::Integer(n) => Ok(Expr::Lit(Value::Int(n as i64))),
        Given::Text(text) => Ok(Expr::Lit(Value::Str(Text::from_str(alloc, text)?))),
        Given::Truth(truth) => Ok(Expr::Lit(Value::Bool(truth))),
        Given::Name(name) => reference_to(alloc, Scope::Bare, name),
        Given::Expression(expr) => expr.copy(alloc),
        Given::Enough => enough(alloc),
    }
}
