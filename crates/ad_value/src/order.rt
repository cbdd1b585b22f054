ghost use Rattle.std.specs.Prelude.{◌≡◌, ◌↔◌, IfOk, IsOk, IsTrue, IsAscii};
ghost use Rattle.std.specs.Ordering.{nat_cmp};
ghost use Rattle.std.specs.Cmp.Lexicographic.{slice_cmp};
ghost use Rattle.ad_value.specs.Content.{content};
ghost use Rattle.ad_value.specs.Names.{lowercase};
ghost use Rattle.ad_value.specs.Order.{order_of, number_order, text_order, folded_order, folded_text};

use crate::memory::Memory;
use crate::value::Value;
use std::alloc::Global;
use std::cmp::Ordering;

/// How a value stands to another one under `==`, `<` and their kin.
#[derive(Clone, Copy)]
pub enum Order {
    Less,
    Equal,
    Greater,
    /// One of them is undefined, and neither is an error or a list.
    Undefined,
    /// One of them is an error or a list, or a string stands against a number or a truth value.
    Error,
}

impl Value {
    /// How the value stands to another one: `Error` where either is an error or a list, else
    /// `Undefined` where either is undefined, else `Error` where a string stands against a number
    /// or a truth value. A truth value counts 1 or 0, and strings compare by the bytes of their
    /// texts after default case folding. That an error or a list counts before an undefined value
    /// is this project's own choice. Computes in O(1), of two strings in O(bytes).
    pub fn order(&self, alloc: Global, other: &Value) -> Result<Order, Memory>
        ensures { IfOk result (λ o. o ≡ order_of (content self.now) (content other.now)) }
    {
        match (self, other) {
            (Value::Error | Value::List(_), _) | (_, Value::Error | Value::List(_)) => {
                Ok(Order::Error)
            }
            (Value::Undefined, _) | (_, Value::Undefined) => Ok(Order::Undefined),
            (Value::Str(a), Value::Str(b)) => order_texts(alloc, a.as_str(), b.as_str()),
            (Value::Str(_), _) | (_, Value::Str(_)) => Ok(Order::Error),
            (Value::Bool(a), Value::Bool(b)) => Ok(order_numbers(i64::from(*a), i64::from(*b))),
            (Value::Bool(a), Value::Int(b)) => Ok(order_numbers(i64::from(*a), *b)),
            (Value::Int(a), Value::Bool(b)) => Ok(order_numbers(*a, i64::from(*b))),
            (Value::Int(a), Value::Int(b)) => Ok(order_numbers(*a, *b)),
        }
    }
}

fn order_numbers(a: i64, b: i64) -> Order
    ensures { result ≡ number_order a b }
{
    if a < b {
        Order::Less
    } else if a == b {
        Order::Equal
    } else {
        Order::Greater
    }
}

fn order_texts(alloc: Global, a: &str, b: &str) -> Result<Order, Memory>
    ensures { IfOk result (λ o. o ≡ text_order a.now b.now) }
{
    Ok(match fold_cmp(alloc, a, b)? {
        Ordering::Less => Order::Less,
        Ordering::Equal => Order::Equal,
        Ordering::Greater => Order::Greater,
    })
}

/// How two texts stand by the bytes of their texts after default case folding (The Unicode
/// Standard, section 3.13). Computes in O(bytes), without memory where the texts are equal or both
/// are ASCII.
pub fn fold_cmp(alloc: Global, a: &str, b: &str) -> Result<Ordering, Memory>
    ensures value { IfOk result (λ o. o ≡ folded_order a.now b.now) }
    ensures equal { a.now ≡ b.now → IsOk result }
    ensures ascii { IsAscii a.now → IsAscii b.now → IsOk result }
{
    if a == b {
        return Ok(Ordering::Equal);
    }
    if a.is_ascii() && b.is_ascii() {
        return Ok(ascii_cmp(a.as_bytes(), b.as_bytes()));
    }
    let a = caseless::default_case_fold_str(alloc, a)?;
    let b = caseless::default_case_fold_str(alloc, b)?;
    Ok(a.as_str().cmp(b.as_str()))
}

// How bytes stand with their ASCII letters in lower case.
fn ascii_cmp(a: &[u8], b: &[u8]) -> Ordering
    ensures { result ≡ slice_cmp nat_cmp (lowercase a.now) (lowercase b.now) }
{
    a.iter()
        .map(|x| x.to_ascii_lowercase())
        .cmp(b.iter().map(|y| y.to_ascii_lowercase()))
}

/// Whether two texts are equal after default case folding (The Unicode Standard, section 3.13).
/// Computes in O(bytes), without memory where the texts are equal or both are ASCII.
pub fn fold_eq(alloc: Global, a: &str, b: &str) -> Result<bool, Memory>
    ensures { IfOk result (λ same. IsTrue same ↔ (folded_text a.now ≡ folded_text b.now)) }
{
    Ok(fold_cmp(alloc, a, b)?.is_eq())
}
