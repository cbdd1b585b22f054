ghost use Rattle.std.specs.Prelude.{◌≡◌, ◌<◌, ◌^◌, ◌==◌, pos, length, chars, slice_index};
ghost use Rattle.ad_value.specs.Content.{content, integer};
ghost use Rattle.ad_func.specs.Values.{arguments};
ghost use Rattle.ad_func.specs.Arguments.{with_none, with_one};
ghost use Rattle.ad_func.specs.Numbers.{read_integer, int_of, size_of, time_of};

use crate::arguments::one;
use ad_value::Value;

fn has_plus(text: &str) -> bool
    ensures { result ≡ (slice_index text.now 0 == 43) }
{
    text.starts_with('+')
}

fn read_integer(text: &str) -> Value
    ensures { content result ≡ read_integer text.now }
{
    // std takes a plus too
    if has_plus(text) {
        return Value::Error;
    }
    match text.parse() {
        Ok(n) => Value::Int(n),
        Err(_) => Value::Error,
    }
}

fn int_of(value: &Value) -> Value
    ensures { content result ≡ int_of (content value.now) }
{
    match value {
        Value::Bool(b) => Value::Int(i64::from(*b)),
        Value::Int(n) => Value::Int(*n),
        Value::Str(text) => read_integer(text.as_str()),
        Value::Undefined | Value::Error | Value::List(_) => Value::Error,
    }
}

/// `int(x)`: of a text that is an optional minus and digits, within 64 bits.
pub fn int(values: &[Value]) -> Value
    ensures { content result ≡ with_one int_of (arguments values.now) }
{
    match one(values) {
        Ok(x) => int_of(x),
        Err(value) => value,
    }
}

/// A count as a value: texts and lists are shorter than the greatest integer.
pub fn count_of(count: usize) -> Value
    requires { count < 2 ^ 63 }
    ensures { content result ≡ integer (pos count) }
{
    Value::Int(count as i64)
}

/// How many characters a text has. Computes in O(bytes).
pub fn characters_in(text: &str) -> usize
    ensures count { result ≡ length (chars text.now) }
    ensures short { result < 2 ^ 63 }
{
    text.chars().count()
}

fn size_of(value: &Value) -> Value
    ensures { content result ≡ size_of (content value.now) }
{
    match value {
        Value::Str(text) => count_of(characters_in(text.as_str())),
        Value::List(list) => count_of(list.items.len()),
        Value::Undefined | Value::Error | Value::Bool(_) | Value::Int(_) => Value::Error,
    }
}

/// `size(x)`: the characters of a text, the items of a list.
pub fn size(values: &[Value]) -> Value
    ensures { content result ≡ with_one size_of (arguments values.now) }
{
    match one(values) {
        Ok(x) => size_of(x),
        Err(value) => value,
    }
}

/// `time()`: the reading, in seconds since 1970-01-01 00:00:00 UTC. One past the integers is an
/// error.
pub fn time(values: &[Value], now: u64) -> Value
    ensures { content result ≡ with_none (time_of now) (arguments values.now) }
{
    if !values.is_empty() {
        return Value::Error;
    }
    match i64::try_from(now) {
        Ok(seconds) => Value::Int(seconds),
        Err(_) => Value::Error,
    }
}
