// What an expression feeds a hasher: a number for each kind of expression, and then its parts.

ghost use Rattle.std.specs.Prelude.{◌≡◌};
ghost use Rattle.ad_value.specs.Content.{content};
ghost use Rattle.ad_tree.specs.Tree.{tree, trees, trees_of, rests, rests_of};
ghost use Rattle.ad_rows.specs.Digests.{byte_fed, text_fed, integer_fed, content_fed, tree_fed, trees_fed, rests_fed};

use crate::operators::{infix_number, prefix_number, scope_number};
use ad_tree::{Expr, ExprList, RestList};
use ad_value::{Text, Value};
use std::hash::{FoldHasher, Hash, Hasher};

fn feed_byte(state: FoldHasher, byte: u8) -> FoldHasher
    ensures { result ≡ byte_fed state byte }
{
    let mut state = state;
    state.write_u8(byte);
    state
}

fn feed_text(state: FoldHasher, text: &Text) -> FoldHasher
    ensures { result ≡ text_fed state text.now }
{
    let mut state = state;
    text.as_str().hash(&mut state);
    state
}

#[cycle(feed)]
pub(crate) fn feed_expr(state: FoldHasher, expr: &Expr) -> FoldHasher
    ensures { result ≡ tree_fed state (tree expr.now) }
{
    match expr {
        Expr::Lit(value) => feed_value(state, value),
        Expr::Ref { scope, name } => {
            let state = feed_byte(feed_byte(state, 7), scope_number(*scope));
            feed_text(state, name)
        }
        Expr::Unary { op, arg } => {
            let state = feed_byte(feed_byte(state, 8), prefix_number(*op));
            feed_expr(state, arg)
        }
        Expr::Chain { first, rest } => feed_rests(feed_expr(feed_byte(state, 9), first), rest),
        Expr::Cond { test, yes, no } => {
            let state = feed_expr(feed_byte(state, 10), test);
            feed_expr(feed_expr(state, yes), no)
        }
        Expr::OrElse { first, other } => feed_expr(feed_expr(feed_byte(state, 11), first), other),
        Expr::Call { name, args } => feed_items(feed_text(feed_byte(state, 12), name), args),
        Expr::Items(items) => feed_items(feed_byte(state, 13), items),
    }
}

#[cycle(feed)]
#[tactic(auto, using(crate::proofs::Feeding::steps))]
fn feed_rests(state: FoldHasher, list: &RestList) -> FoldHasher
    ensures { result ≡ rests_fed state (rests_of (rests list.now)) }
{
    let mut fed = state;
    for rest in &list.items {
        let before = feed_byte(feed_byte(fed, 14), infix_number(rest.op));
        fed = feed_expr(before, &rest.arg);
    }
    feed_byte(fed, 15)
}

#[cycle(feed)]
#[tactic(auto, using(crate::proofs::Feeding::steps))]
fn feed_items(state: FoldHasher, list: &ExprList) -> FoldHasher
    ensures { result ≡ trees_fed state (trees_of (trees list.now)) }
{
    let mut fed = state;
    for item in &list.items {
        fed = feed_expr(feed_byte(fed, 14), item);
    }
    feed_byte(fed, 15)
}

// A literal. Lists of values are not gone through: the text of none is a literal.
fn feed_value(state: FoldHasher, value: &Value) -> FoldHasher
    ensures { result ≡ content_fed state (content value.now) }
{
    match value {
        Value::Undefined => feed_byte(state, 0),
        Value::Error => feed_byte(state, 1),
        Value::Bool(false) => feed_byte(state, 2),
        Value::Bool(true) => feed_byte(state, 3),
        Value::Int(number) => feed_integer(feed_byte(state, 4), *number),
        Value::Str(text) => feed_text(feed_byte(state, 5), text),
        Value::List(_) => feed_byte(state, 6),
    }
}

fn feed_integer(state: FoldHasher, number: i64) -> FoldHasher
    ensures { result ≡ integer_fed state number }
{
    let mut state = state;
    state.write_i64(number);
    state
}
