ghost use Rattle.std.specs.Prelude.{◌≡◌, ◌+◌, ◌≤◌, ◌<◌, ◌^◌, IfOk, map, length, chars, bytes_eq};
ghost use Rattle.std.specs.List.{list_any};
ghost use Rattle.ad_value.specs.Content.{content};
ghost use Rattle.ad_value.specs.Order.{order_of};
ghost use Rattle.ad_value.specs.Gives.{GivesValue};
ghost use Rattle.ad_func.specs.Values.{arguments, optional_argument};
ghost use Rattle.ad_func.specs.Arguments.{with_two, with_one_or_two, with_two_or_three};
ghost use Rattle.ad_func.specs.Lists.{is_equal, has_equal, member, pieces_between, pieces, has_piece, string_list_member, string_list_size};

use crate::arguments::{one_or_two, two, two_or_three};
use crate::function::ValueKind;
use crate::kinds::is_of_kind;
use crate::numbers::count_of;
use ad_value::{Memory, Order, Value};
use std::alloc::{AllocError, Global};

const DEFAULT_DELIMITERS: &str = " ,";

fn is_equal(alloc: Global, x: &Value, item: &Value) -> Result<bool, Memory>
    ensures { IfOk result (λ b. b ≡ is_equal (order_of (content x.now) (content item.now))) }
{
    Ok(matches!(x.order(alloc, item)?, Order::Equal))
}

fn has_equal(alloc: Global, x: &Value, items: &[Value]) -> Result<bool, Memory>
    ensures { IfOk result (λ b. b ≡ has_equal (content x.now) (map content items.now)) }
{
    for item in items {
        if is_equal(alloc, x, item)? {
            return Ok(true);
        }
    }
    Ok(false)
}

fn member_value(alloc: Global, x: &Value, list: &Value) -> Result<Value, Memory>
    ensures { GivesValue result (member (content x.now) (content list.now)) }
{
    let Value::List(list) = list else {
        return Ok(Value::Error);
    };
    if is_of_kind(ValueKind::List, x) {
        return Ok(Value::Error);
    }
    Ok(Value::Bool(has_equal(alloc, x, &list.items)?))
}

/// `member(x, list)`: whether an item is equal under `==`.
pub fn member(alloc: Global, values: &[Value]) -> Result<Value, Memory>
    ensures { GivesValue result (with_two member (arguments values.now)) }
{
    match two(values) {
        Ok((x, list)) => member_value(alloc, x, list),
        Err(value) => Ok(value),
    }
}

fn characters_of(alloc: Global, text: &str) -> Result<Vec<char>, AllocError>
    ensures { IfOk result (λ v. v.items ≡ chars text.now) }
{
    text.chars().collect(alloc)
}

fn count_pieces(text: &[char], delimiters: &[char]) -> usize
    ensures count { result ≡ length (pieces_between delimiters.now text.now) }
    ensures short { result ≤ length text.now + 1 }
{
    text.split(|c| delimiters.contains(c))
        .filter(|piece| !piece.is_empty())
        .count()
}

fn any_piece(wanted: &[char], text: &[char], delimiters: &[char]) -> bool
    ensures { result
        ≡ list_any (λ p. bytes_eq p wanted.now) (pieces_between delimiters.now text.now) }
{
    text.split(|c| delimiters.contains(c))
        .filter(|piece| !piece.is_empty())
        .any(|piece| piece == wanted)
}

/// `stringListMember(s, list)` and `stringListMember(s, list, delimiters)`
pub fn string_list_member(alloc: Global, values: &[Value]) -> Result<Value, Memory>
    ensures { GivesValue result (with_two_or_three string_list_member (arguments values.now)) }
{
    match two_or_three(values) {
        Ok((s, list, delimiters)) => member_of_pieces(alloc, s, list, delimiters),
        Err(value) => Ok(value),
    }
}

fn member_of_pieces(
    alloc: Global,
    s: &Value,
    list: &Value,
    delimiters: Option<&Value>,
) -> Result<Value, Memory>
    ensures { GivesValue result (string_list_member
        (content s.now)
        (content list.now)
        (optional_argument delimiters.entry)) }
{
    match (s, list, delimiters) {
        (Value::Str(s), Value::Str(list), None) => Ok(Value::Bool(has_piece(
            alloc,
            s.as_str(),
            DEFAULT_DELIMITERS,
            list.as_str(),
        )?)),
        (Value::Str(s), Value::Str(list), Some(Value::Str(delimiters))) => Ok(Value::Bool(has_piece(
            alloc,
            s.as_str(),
            delimiters.as_str(),
            list.as_str(),
        )?)),
        _ => Ok(Value::Error),
    }
}

fn has_piece(alloc: Global, s: &str, delimiters: &str, list: &str) -> Result<bool, Memory>
    ensures { IfOk result (λ b. b ≡ has_piece s.now delimiters.now list.now) }
{
    let wanted = characters_of(alloc, s)?;
    let delimiters = characters_of(alloc, delimiters)?;
    let text = characters_of(alloc, list)?;
    Ok(any_piece(&wanted, &text, &delimiters))
}

/// `stringListSize(list)` and `stringListSize(list, delimiters)`
pub fn string_list_size(alloc: Global, values: &[Value]) -> Result<Value, Memory>
    ensures { GivesValue result (with_one_or_two string_list_size (arguments values.now)) }
{
    match one_or_two(values) {
        Ok((list, delimiters)) => size_of_pieces(alloc, list, delimiters),
        Err(value) => Ok(value),
    }
}

fn size_of_pieces(alloc: Global, list: &Value, delimiters: Option<&Value>) -> Result<Value, Memory>
    ensures { GivesValue result
        (string_list_size (content list.now) (optional_argument delimiters.entry)) }
{
    match (list, delimiters) {
        (Value::Str(list), None) => Ok(count_of(piece_count(
            alloc,
            DEFAULT_DELIMITERS,
            list.as_str(),
        )?)),
        (Value::Str(list), Some(Value::Str(delimiters))) => Ok(count_of(piece_count(
            alloc,
            delimiters.as_str(),
            list.as_str(),
        )?)),
        _ => Ok(Value::Error),
    }
}

fn piece_count(alloc: Global, delimiters: &str, list: &str) -> Result<usize, Memory>
    ensures count { IfOk result (λ n. n ≡ length (pieces delimiters.now list.now)) }
    ensures short { IfOk result (λ n. n < 2 ^ 63) }
{
    let delimiters = characters_of(alloc, delimiters)?;
    let text = characters_of(alloc, list)?;
    Ok(count_pieces(&text, &delimiters))
}
