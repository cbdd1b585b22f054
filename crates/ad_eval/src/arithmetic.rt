ghost use Rattle.std.specs.Prelude.{◌≡◌, ◌+ℤ◌, ◌-ℤ◌, ◌*ℤ◌, neg_ℤ, ℤ};
ghost use Rattle.ad_value.specs.Content.{Content, content, integer};
ghost use Rattle.ad_value.specs.Gives.{ComesTo};
ghost use Rattle.ad_eval.specs.Operators.{integer_or_error, quotient, remainder, arithmetic_value, of_numbers, of_number};
ghost use Rattle.ad_eval.specs.Checked.{checked_value};

use ad_tree::BinOp;
use ad_value::Value;

fn checked_value(number: Option<i64>) -> Value
    ensures { content result ≡ checked_value number }
{
    match number {
        Some(n) => Value::Int(n),
        None => Value::Error,
    }
}

/// A sum that is out of range is an error, and likewise below.
#[tactic(auto, using(crate::proofs::NumberLemmas::checked_is))]
fn sum(a: i64, b: i64) -> Value
    ensures { content result ≡ integer_or_error (a +ℤ b) }
{
    checked_value(a.checked_add(b))
}

#[tactic(auto, using(crate::proofs::NumberLemmas::checked_is))]
fn difference(a: i64, b: i64) -> Value
    ensures { content result ≡ integer_or_error (a -ℤ b) }
{
    checked_value(a.checked_sub(b))
}

#[tactic(auto, using(crate::proofs::NumberLemmas::checked_is))]
fn product(a: i64, b: i64) -> Value
    ensures { content result ≡ integer_or_error (a *ℤ b) }
{
    checked_value(a.checked_mul(b))
}

#[tactic(auto, using(crate::proofs::NumberLemmas::quotient_is))]
fn quotient(a: i64, b: i64) -> Value
    ensures { content result ≡ quotient a b }
{
    if b == 0 {
        return Value::Error;
    }
    checked_value(a.checked_div(b))
}

// The least integer has the remainder 0 by -1.
fn remainder(a: i64, b: i64) -> Value
    ensures { content result ≡ remainder a b }
{
    if b == 0 {
        return Value::Error;
    }
    Value::Int(a.wrapping_rem(b))
}

/// `+`, `-`, `*`, `/` and `%`.
pub fn arithmetic_value(op: BinOp, a: i64, b: i64) -> Value
    ensures { content result ≡ arithmetic_value op a b }
{
    match op {
        BinOp::Add => sum(a, b),
        BinOp::Subtract => difference(a, b),
        BinOp::Multiply => product(a, b),
        BinOp::Divide => quotient(a, b),
        BinOp::Modulo => remainder(a, b),
        _ => Value::Error,
    }
}

/// The numbers of two operands, or the value where their kinds already give it.
pub fn operand_numbers(a: &Value, b: &Value) -> Result<(i64, i64), Value>
    ensures { (f : ℤ → ℤ → Content) → ComesTo result
        (of_numbers f (content a.now) (content b.now))
        (λ n. f n.0 n.1) }
{
    match (a, b) {
        (Value::Error | Value::Str(_) | Value::List(_), _)
        | (_, Value::Error | Value::Str(_) | Value::List(_)) => Err(Value::Error),
        (Value::Undefined, _) | (_, Value::Undefined) => Err(Value::Undefined),
        (Value::Bool(a), Value::Bool(b)) => Ok((i64::from(*a), i64::from(*b))),
        (Value::Bool(a), Value::Int(b)) => Ok((i64::from(*a), *b)),
        (Value::Int(a), Value::Bool(b)) => Ok((*a, i64::from(*b))),
        (Value::Int(a), Value::Int(b)) => Ok((*a, *b)),
    }
}

#[tactic(auto, using(crate::proofs::NumberLemmas::checked_is))]
fn negate(n: i64) -> Value
    ensures { content result ≡ integer_or_error (neg_ℤ n) }
{
    checked_value(n.checked_neg())
}

/// `-a`
pub fn unary_minus(a: &Value) -> Value
    ensures { content result ≡ of_number (λ n. integer_or_error (neg_ℤ n)) (content a.now) }
{
    match a {
        Value::Undefined => Value::Undefined,
        Value::Bool(b) => negate(i64::from(*b)),
        Value::Int(n) => negate(*n),
        Value::Error | Value::Str(_) | Value::List(_) => Value::Error,
    }
}

/// `+a`
pub fn unary_plus(a: &Value) -> Value
    ensures { content result ≡ of_number integer (content a.now) }
{
    match a {
        Value::Undefined => Value::Undefined,
        Value::Bool(b) => Value::Int(i64::from(*b)),
        Value::Int(n) => Value::Int(*n),
        Value::Error | Value::Str(_) | Value::List(_) => Value::Error,
    }
}
