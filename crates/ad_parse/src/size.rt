// How many bytes canonical texts have, without making them. Each function adds to a size, which
// stops at the greatest number of 64 bits.

ghost use Rattle.std.specs.Prelude.{◌≡◌, ◌+◌, min, length, slice_get, count_by};
ghost use Rattle.std.specs.Option.{option_map_or};
ghost use Rattle.ad_value.specs.Content.{content, contents, contents_of};
ghost use Rattle.ad_value.specs.Literal.{literal_text, items_text, item_separator, integer_text, quoted_text};
ghost use Rattle.ad_token.specs.Strings.{is_escapable};
ghost use Rattle.ad_tree.specs.Tree.{tree, trees, trees_of, rests, rests_of};
ghost use Rattle.ad_parse.specs.Canon.{canon, canon_rests, canon_items, canon_within, looseness};
ghost use Rattle.ad_parse.specs.PrintedSize.{attribute_bytes, ad_bytes};

use crate::levels::{LOOSEST, level_of, looseness, rests_level};
use crate::print::{infix_text, prefix_text, scope_text};
use ad_tree::{Ad, Expr, ExprList, RestList};
use ad_value::{Value, ValueList};
use itoa::Buffer;

/// How many bytes the names of an ad and the canonical texts of its expressions have together,
/// without memory. Stops at 18446744073709551615. Computes in O(size of the ad).
pub fn printed_size(ad: &Ad) -> u64
    ensures { result ≡ min (ad_bytes ad.now) u64.MAX }
{
    let mut size = 0u64;
    for place in 0..ad.len() {
        size = add_attribute(size, ad, place);
    }
    size
}

// Adds the attribute at a place.
fn add_attribute(size: u64, ad: &Ad, place: usize) -> u64
    ensures { result ≡ min
        (size + option_map_or attribute_bytes (slice_get ad.now place) 0)
        u64.MAX }
{
    match ad.attribute(place) {
        Some((name, expr)) => add_expr(add_text(size, name), expr),
        None => size,
    }
}

fn add_bytes(size: u64, bytes: usize) -> u64
    ensures { result ≡ min (size + bytes) u64.MAX }
{
    size.saturating_add(bytes as u64)
}

fn add_text(size: u64, text: &str) -> u64
    ensures { result ≡ min (size + length text.now) u64.MAX }
{
    add_bytes(size, text.len())
}

#[cycle(size)]
fn add_expr(size: u64, expr: &Expr) -> u64
    ensures { result ≡ min (size + length (canon (tree expr.now))) u64.MAX }
{
    match expr {
        Expr::Lit(value) => add_literal(size, value),
        Expr::Ref { scope, name } => add_text(add_text(size, scope_text(*scope)), name.as_str()),
        Expr::Unary { op, arg } => add_within(add_text(size, prefix_text(*op)), 0, arg),
        Expr::Chain { first, rest } => {
            let size = add_within(size, rests_level(rest).saturating_sub(1), first);
            add_rests(size, rest)
        }
        Expr::Cond { test, yes, no } => {
            let size = add_text(add_within(size, LOOSEST, test), " ? ");
            let size = add_text(add_expr(size, yes), " : ");
            add_expr(size, no)
        }
        Expr::OrElse { first, other } => {
            let size = add_text(add_within(size, LOOSEST, first), " ?: ");
            add_expr(size, other)
        }
        Expr::Call { name, args } => {
            let size = add_text(add_text(size, name.as_str()), "(");
            add_text(add_items(size, args), ")")
        }
        Expr::Items(items) => add_text(add_items(add_text(size, "{"), items), "}"),
    }
}

// Adds an operand, in brackets where it is looser than its place allows.
#[cycle(size)]
fn add_within(size: u64, loosest: usize, expr: &Expr) -> u64
    ensures { result ≡ min
        (size + length (canon_within loosest (looseness (tree expr.now)) (canon (tree expr.now))))
        u64.MAX }
{
    if looseness(expr) <= loosest {
        return add_expr(size, expr);
    }
    add_text(add_expr(add_text(size, "("), expr), ")")
}

#[cycle(size)]
fn add_rests(size: u64, list: &RestList) -> u64
    ensures { result ≡ min (size + length (canon_rests (rests_of (rests list.now)))) u64.MAX }
{
    let mut total = size;
    for rest in &list.items {
        let before = add_text(total, infix_text(rest.op));
        total = add_within(before, level_of(rest.op) - 1, &rest.arg);
    }
    total
}

#[cycle(size)]
fn add_items(size: u64, list: &ExprList) -> u64
    ensures { result ≡ min (size + length (canon_items (trees_of (trees list.now)))) u64.MAX }
{
    let mut total = size;
    for (i, item) in list.items.iter().enumerate() {
        let before = add_text(total, item_separator(i));
        total = add_expr(before, item);
    }
    total
}

// What stands before the item at a place of a list.
fn item_separator(place: usize) -> &'static str
    ensures { result.now ≡ item_separator place }
{
    if place == 0 { "" } else { ", " }
}

#[cycle(literal_size)]
fn add_literal(size: u64, value: &Value) -> u64
    ensures { result ≡ min (size + length (literal_text (content value.now))) u64.MAX }
{
    match value {
        Value::Undefined => add_text(size, "UNDEFINED"),
        Value::Error => add_text(size, "ERROR"),
        Value::Bool(true) => add_text(size, "TRUE"),
        Value::Bool(false) => add_text(size, "FALSE"),
        Value::Int(n) => add_integer(size, *n),
        Value::Str(text) => add_quoted(size, text.as_str()),
        Value::List(list) => add_text(add_literals(add_text(size, "{"), list), "}"),
    }
}

#[cycle(literal_size)]
fn add_literals(size: u64, list: &ValueList) -> u64
    ensures { result ≡ min (size + length (items_text (contents_of (contents list.now)))) u64.MAX }
{
    let mut total = size;
    for (i, item) in list.items.iter().enumerate() {
        let before = add_text(total, item_separator(i));
        total = add_literal(before, item);
    }
    total
}

fn add_integer(size: u64, n: i64) -> u64
    ensures { result ≡ min (size + length (integer_text n)) u64.MAX }
{
    if n == i64::MIN {
        return add_text(size, "-9223372036854775807 - 1");
    }
    let mut buffer = Buffer::new();
    add_text(size, buffer.format(n))
}

// Adds a string, with its quotes and escapes.
fn add_quoted(size: u64, text: &str) -> u64
    ensures { result ≡ min (size + length (quoted_text text.now)) u64.MAX }
{
    let size = add_bytes(size, text.len());
    let size = add_bytes(size, escapes(text.as_bytes()));
    add_bytes(size, 2)
}

// How many bytes have a backslash before them in a literal.
fn escapes(bytes: &[u8]) -> usize
    ensures { result ≡ count_by is_escapable bytes.now }
{
    bytes.iter().filter(|b| **b == b'"' || **b == b'\\').count()
}
