ghost use Rattle.std.specs.Prelude.{◌≡◌};
ghost use Rattle.std.specs.Option.{option_map};
ghost use Rattle.ad_value.specs.Content.{content};
ghost use Rattle.ad_value.specs.Truth.{truth_of};
ghost use Rattle.ad_value.specs.Gives.{GivesValue};
ghost use Rattle.ad_eval.specs.Operators.{binary_value, unary_value, comparison_result, stands, same, of_numbers, arithmetic_value};
ghost use Rattle.ad_eval.specs.Settling.{settled_value, when_true, when_false, when_unordered, when_not_counted};

use crate::arithmetic::{arithmetic_value, operand_numbers, unary_minus, unary_plus};
use crate::logic::{both, either, negated_value};
use ad_tree::{BinOp, UnOp};
use ad_value::{Memory, Order, Truth, Value};
use std::alloc::Global;

fn stands(op: BinOp, order: Order) -> bool
    ensures { result ≡ stands op order }
{
    matches!(
        (op, order),
        (BinOp::Equal, Order::Equal)
            | (BinOp::NotEqual, Order::Less | Order::Greater)
            | (BinOp::Less, Order::Less)
            | (BinOp::LessEqual, Order::Less | Order::Equal)
            | (BinOp::GreaterEqual, Order::Equal | Order::Greater)
            | (BinOp::Greater, Order::Greater)
    )
}

fn comparison_result(op: BinOp, order: Order) -> Value
    ensures { content result ≡ comparison_result op order }
{
    match order {
        Order::Error => Value::Error,
        Order::Undefined => Value::Undefined,
        Order::Less | Order::Equal | Order::Greater => Value::Bool(stands(op, order)),
    }
}

#[tactic(auto, using(crate::proofs::SameLemmas::same_is))]
fn same(a: &Value, b: &Value) -> bool
    ensures { result ≡ same (content a.now) (content b.now) }
{
    a.same(b)
}

fn apply_arithmetic(op: BinOp, a: &Value, b: &Value) -> Value
    ensures { content result ≡ of_numbers (arithmetic_value op) (content a.now) (content b.now) }
{
    match operand_numbers(a, b) {
        Ok((x, y)) => arithmetic_value(op, x, y),
        Err(value) => value,
    }
}

/// What an operator makes of two values.
pub fn apply(alloc: Global, op: BinOp, a: &Value, b: &Value) -> Result<Value, Memory>
    ensures { GivesValue result (binary_value op (content a.now) (content b.now)) }
{
    match op {
        BinOp::Or => Ok(either(a.truth(), b.truth())),
        BinOp::And => Ok(both(a.truth(), b.truth())),
        BinOp::Same => Ok(Value::Bool(same(a, b))),
        BinOp::NotSame => Ok(Value::Bool(!same(a, b))),
        BinOp::Equal
        | BinOp::NotEqual
        | BinOp::Less
        | BinOp::LessEqual
        | BinOp::GreaterEqual
        | BinOp::Greater => Ok(comparison_result(op, a.order(alloc, b)?)),
        BinOp::Add | BinOp::Subtract | BinOp::Multiply | BinOp::Divide | BinOp::Modulo => {
            Ok(apply_arithmetic(op, a, b))
        }
    }
}

/// The value where the left operand alone gives it: nothing exactly where the right one matters
/// (`laws::left_side_settles`).
pub fn settle(op: BinOp, a: &Value) -> Option<Value>
    ensures { option_map content result ≡ settled_value op (content a.now) }
{
    match op {
        BinOp::Or => when_true(a),
        BinOp::And => when_false(a),
        BinOp::Same | BinOp::NotSame => None,
        BinOp::Equal
        | BinOp::NotEqual
        | BinOp::Less
        | BinOp::LessEqual
        | BinOp::GreaterEqual
        | BinOp::Greater => when_unordered(a),
        BinOp::Add | BinOp::Subtract | BinOp::Multiply | BinOp::Divide | BinOp::Modulo => {
            when_not_counted(a)
        }
    }
}

fn when_true(a: &Value) -> Option<Value>
    ensures { option_map content result ≡ when_true (truth_of (content a.now)) }
{
    match a.truth() {
        Truth::True => Some(Value::Bool(true)),
        Truth::False | Truth::Undefined | Truth::Error => None,
    }
}

fn when_false(a: &Value) -> Option<Value>
    ensures { option_map content result ≡ when_false (truth_of (content a.now)) }
{
    match a.truth() {
        Truth::False => Some(Value::Bool(false)),
        Truth::True | Truth::Undefined | Truth::Error => None,
    }
}

fn when_unordered(a: &Value) -> Option<Value>
    ensures { option_map content result ≡ when_unordered (content a.now) }
{
    match a {
        Value::Error | Value::List(_) => Some(Value::Error),
        Value::Undefined | Value::Bool(_) | Value::Int(_) | Value::Str(_) => None,
    }
}

fn when_not_counted(a: &Value) -> Option<Value>
    ensures { option_map content result ≡ when_not_counted (content a.now) }
{
    match a {
        Value::Error | Value::Str(_) | Value::List(_) => Some(Value::Error),
        Value::Undefined | Value::Bool(_) | Value::Int(_) => None,
    }
}

/// What an operator before its operand makes of it.
pub fn apply_unary(op: UnOp, a: &Value) -> Value
    ensures { content result ≡ unary_value op (content a.now) }
{
    match op {
        UnOp::Minus => unary_minus(a),
        UnOp::Plus => unary_plus(a),
        UnOp::Not => negated_value(a.truth()),
    }
}
