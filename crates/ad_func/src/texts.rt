ghost use Rattle.std.specs.Prelude.{◌≡◌, Some, IfOk, string_bytes};
ghost use Rattle.ad_value.specs.Content.{content, integer, text as text_value};
ghost use Rattle.ad_value.specs.Gives.{GivesValue};
ghost use Rattle.ad_func.specs.Values.{arguments, optional_argument, optional_bytes};
ghost use Rattle.ad_func.specs.Arguments.{with_one, with_two, with_two_or_three};
ghost use Rattle.ad_func.specs.Texts.{plain_text, text_of_all, from_string, of_string, strcat, upper, lower, sign, comparison_value, folded_comparison_value, strcmp, stricmp, substr, start_of, end_of, characters, substring, substring_of_length};

use crate::arguments::{one, two, two_or_three, unless_settled};
use crate::numbers::characters_in;
use ad_value::{Memory, Text, Value, fold_cmp};
use itoa::Buffer;
use std::alloc::{AllocError, Global};
use std::cmp::Ordering;

fn some_string(alloc: Global, text: &str) -> Result<Option<String>, Memory>
    ensures { IfOk result (λ s. optional_bytes s ≡ Some text.now) }
{
    Ok(Some(String::from_str(alloc, text)?))
}

/// The text of a text, an integer or a truth value.
fn plain_text(alloc: Global, value: &Value) -> Result<Option<String>, Memory>
    ensures { IfOk result (λ s. optional_bytes s ≡ plain_text (content value.now)) }
{
    match value {
        Value::Str(text) => some_string(alloc, text.as_str()),
        Value::Int(n) => {
            let mut buffer = Buffer::new();
            some_string(alloc, buffer.format(*n))
        }
        Value::Bool(true) => some_string(alloc, "true"),
        Value::Bool(false) => some_string(alloc, "false"),
        Value::Undefined | Value::Error | Value::List(_) => Ok(None),
    }
}

fn string_value(alloc: Global, x: &Value) -> Result<Value, Memory>
    ensures { GivesValue result (of_string text_value (content x.now)) }
{
    match plain_text(alloc, x)? {
        Some(text) => Ok(Value::Str(Text::from(text))),
        None => Ok(Value::Error),
    }
}

/// `string(x)`
pub fn string(alloc: Global, values: &[Value]) -> Result<Value, Memory>
    ensures { GivesValue result (with_one (of_string text_value) (arguments values.now)) }
{
    match one(values) {
        Ok(x) => string_value(alloc, x),
        Err(value) => Ok(value),
    }
}

fn upper_value(alloc: Global, x: &Value) -> Result<Value, Memory>
    ensures { GivesValue result (of_string upper (content x.now)) }
{
    match plain_text(alloc, x)? {
        Some(mut text) => {
            text.make_ascii_uppercase();
            Ok(Value::Str(Text::from(text)))
        }
        None => Ok(Value::Error),
    }
}

/// `toUpper(x)`: the text with its ASCII letters in upper case.
pub fn to_upper(alloc: Global, values: &[Value]) -> Result<Value, Memory>
    ensures { GivesValue result (with_one (of_string upper) (arguments values.now)) }
{
    match one(values) {
        Ok(x) => upper_value(alloc, x),
        Err(value) => Ok(value),
    }
}

fn lower_value(alloc: Global, x: &Value) -> Result<Value, Memory>
    ensures { GivesValue result (of_string lower (content x.now)) }
{
    match plain_text(alloc, x)? {
        Some(mut text) => {
            text.make_ascii_lowercase();
            Ok(Value::Str(Text::from(text)))
        }
        None => Ok(Value::Error),
    }
}

/// `toLower(x)`
pub fn to_lower(alloc: Global, values: &[Value]) -> Result<Value, Memory>
    ensures { GivesValue result (with_one (of_string lower) (arguments values.now)) }
{
    match one(values) {
        Ok(x) => lower_value(alloc, x),
        Err(value) => Ok(value),
    }
}

fn sign_value(order: Ordering) -> Value
    ensures { content result ≡ integer (sign order) }
{
    match order {
        Ordering::Less => Value::Int(-1),
        Ordering::Equal => Value::Int(0),
        Ordering::Greater => Value::Int(1),
    }
}

fn compare(a: &str, b: &str) -> Value
    ensures { content result ≡ comparison_value a.now b.now }
{
    sign_value(a.cmp(b))
}

fn compare_folded(alloc: Global, a: &str, b: &str) -> Result<Value, Memory>
    ensures { GivesValue result (folded_comparison_value a.now b.now) }
{
    Ok(sign_value(fold_cmp(alloc, a, b)?))
}

// Two strings are compared as they lie.
fn compare_values(alloc: Global, x: &Value, y: &Value) -> Result<Value, Memory>
    ensures { GivesValue result (strcmp (content x.now) (content y.now)) }
{
    match (x, y) {
        (Value::Str(a), Value::Str(b)) => Ok(compare(a.as_str(), b.as_str())),
        _ => compare_plain_texts(alloc, x, y),
    }
}

fn compare_plain_texts(alloc: Global, x: &Value, y: &Value) -> Result<Value, Memory>
    ensures { GivesValue result (strcmp (content x.now) (content y.now)) }
{
    let Some(a) = plain_text(alloc, x)? else {
        return Ok(Value::Error);
    };
    let Some(b) = plain_text(alloc, y)? else {
        return Ok(Value::Error);
    };
    Ok(compare(a.as_str(), b.as_str()))
}

fn compare_values_folded(alloc: Global, x: &Value, y: &Value) -> Result<Value, Memory>
    ensures { GivesValue result (stricmp (content x.now) (content y.now)) }
{
    match (x, y) {
        (Value::Str(a), Value::Str(b)) => compare_folded(alloc, a.as_str(), b.as_str()),
        _ => compare_plain_texts_folded(alloc, x, y),
    }
}

fn compare_plain_texts_folded(alloc: Global, x: &Value, y: &Value) -> Result<Value, Memory>
    ensures { GivesValue result (stricmp (content x.now) (content y.now)) }
{
    let Some(a) = plain_text(alloc, x)? else {
        return Ok(Value::Error);
    };
    let Some(b) = plain_text(alloc, y)? else {
        return Ok(Value::Error);
    };
    compare_folded(alloc, a.as_str(), b.as_str())
}

/// `strcmp(a, b)`: -1, 0 or 1 by the bytes of the texts.
pub fn strcmp(alloc: Global, values: &[Value]) -> Result<Value, Memory>
    ensures { GivesValue result (with_two strcmp (arguments values.now)) }
{
    match two(values) {
        Ok((x, y)) => compare_values(alloc, x, y),
        Err(value) => Ok(value),
    }
}

/// `stricmp(a, b)`: the same of the folded texts.
pub fn stricmp(alloc: Global, values: &[Value]) -> Result<Value, Memory>
    ensures { GivesValue result (with_two stricmp (arguments values.now)) }
{
    match two(values) {
        Ok((x, y)) => compare_values_folded(alloc, x, y),
        Err(value) => Ok(value),
    }
}

fn start_of(count: usize, offset: i64) -> usize
    ensures { result ≡ start_of count offset }
{
    let distance = offset.unsigned_abs() as usize;
    if offset < 0 {
        count.saturating_sub(distance)
    } else {
        distance.min(count)
    }
}

fn end_of(count: usize, start: usize, length: i64) -> usize
    ensures { result ≡ end_of count start length }
{
    let distance = length.unsigned_abs() as usize;
    if length < 0 {
        start.max(count.saturating_sub(distance))
    } else {
        count.min(start.saturating_add(distance))
    }
}

fn characters(alloc: Global, text: &str, start: usize, end: usize) -> Result<String, AllocError>
    ensures { IfOk result (λ t. string_bytes t ≡ characters start end text.now) }
{
    let length = end.saturating_sub(start);
    text.chars().skip(start).take(length).collect(alloc)
}

fn substring(alloc: Global, text: &str, offset: i64) -> Result<Value, Memory>
    ensures { GivesValue result (text_value (substring text.now offset)) }
{
    let count = characters_in(text);
    let part = characters(alloc, text, start_of(count, offset), count)?;
    Ok(Value::Str(Text::from(part)))
}

fn substring_of_length(alloc: Global, text: &str, offset: i64, length: i64) -> Result<Value, Memory>
    ensures { GivesValue result (text_value (substring_of_length text.now offset length)) }
{
    let count = characters_in(text);
    let start = start_of(count, offset);
    let part = characters(alloc, text, start, end_of(count, start, length))?;
    Ok(Value::Str(Text::from(part)))
}

fn substring_value(
    alloc: Global,
    s: &Value,
    offset: &Value,
    length: Option<&Value>,
) -> Result<Value, Memory>
    ensures { GivesValue result
        (substr (content s.now) (content offset.now) (optional_argument length.entry)) }
{
    match (s, offset, length) {
        (Value::Str(text), Value::Int(offset), None) => substring(alloc, text.as_str(), *offset),
        (Value::Str(text), Value::Int(offset), Some(Value::Int(length))) => {
            substring_of_length(alloc, text.as_str(), *offset, *length)
        }
        _ => Ok(Value::Error),
    }
}

/// `substr(s, offset)` and `substr(s, offset, length)`, in characters: a negative offset counts
/// from the end, and a negative length leaves characters out at the end.
pub fn substr(alloc: Global, values: &[Value]) -> Result<Value, Memory>
    ensures { GivesValue result (with_two_or_three substr (arguments values.now)) }
{
    match two_or_three(values) {
        Ok((s, offset, length)) => substring_value(alloc, s, offset, length),
        Err(value) => Ok(value),
    }
}

fn text_of_all(alloc: Global, values: &[Value]) -> Result<Option<String>, Memory>
    ensures { IfOk result (λ s. optional_bytes s ≡ text_of_all (arguments values.now)) }
{
    let mut text = String::new(alloc);
    for value in values {
        match plain_text(alloc, value)? {
            Some(more) => text.push_str(more.as_str())?,
            None => return Ok(None),
        }
    }
    Ok(Some(text))
}

fn joined_value(alloc: Global, values: &[Value]) -> Result<Value, Memory>
    ensures { GivesValue result (from_string text_value (text_of_all (arguments values.now))) }
{
    match text_of_all(alloc, values)? {
        Some(text) => Ok(Value::Str(Text::from(text))),
        None => Ok(Value::Error),
    }
}

/// `strcat(x, y, ..)` of any number of values.
pub fn strcat(alloc: Global, values: &[Value]) -> Result<Value, Memory>
    ensures { GivesValue result (strcat (arguments values.now)) }
{
    match unless_settled(values, ()) {
        Ok(()) => joined_value(alloc, values),
        Err(value) => Ok(value),
    }
}
