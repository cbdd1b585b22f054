ghost use Rattle.std.specs.Prelude.{◌≡◌, ◌≤◌, ◌<◌, ◌==◌, ◌||◌, IfOk, IsUtf8, OnOk, Some, [], ◌++◌, length};
ghost use Rattle.std.specs.List.{position_or_len};
ghost use Rattle.submit_lines.specs.Queue.{is_separator, items_of, with_item, has_bracket, items_in, bracketed_items};

use crate::cut::between;
use ad_token::is_blank;
use ad_value::{Memory, Seq, Text, TextList};
use std::alloc::Global;

/// The items between brackets, divided by blanks and commas. `None` exactly where the text is not
/// in brackets, or has one within them. Computes in O(bytes).
pub(crate) fn bracketed_items(alloc: Global, text: &str) -> Result<Option<TextList>, Memory>
    ensures { IfOk result (λ i. i ≡ bracketed_items text.now) }
{
    match between(text, b'(', b')') {
        Some(inner) => items_in(alloc, inner),
        None => Ok(None),
    }
}

fn items_in(alloc: Global, inner: &str) -> Result<Option<TextList>, Memory>
    ensures { IfOk result (λ i. i ≡ items_in (Some inner.now)) }
{
    if has_bracket(inner.as_bytes()) {
        return Ok(None);
    }
    let items = items_of(alloc, inner)?;
    Ok(Some(items))
}

fn has_bracket(bytes: &[u8]) -> bool
    ensures { result ≡ has_bracket bytes.now }
{
    bytes.iter().any(|b| *b == b'(' || *b == b')')
}

fn items_of(alloc: Global, text: &str) -> Result<TextList, Memory>
    ensures { IfOk result (λ i. i ≡ items_of text.now) }
{
    let mut items = Seq::new(alloc);
    let mut rest = text;
    while !rest.is_empty() {
        let (item, after) = next_item(rest);
        add_item(alloc, &mut items, item)?;
        rest = after;
    }
    Ok(items)
}

// Adds an item that is not empty.
fn add_item(alloc: Global, items: &mut TextList, item: &str) -> Result<(), Memory>
    ensures { OnOk result (items.new ≡ items.old ++ with_item item.now []) }
{
    if item.is_empty() {
        return Ok(());
    }
    let text = Text::from_str(alloc, item)?;
    items.push(text)?;
    Ok(())
}

// The item that stands first, perhaps empty, and the text after the separator behind it.
#[tactic(auto, using(crate::proofs::Pieces::item_pieces, crate::proofs::Boundaries::item_cuts))]
fn next_item(text: &str) -> (&str, &str)
    requires { 0 < length text.now }
    ensures value { items_of text.now ≡ with_item result.0.now (items_of result.1.now) }
    ensures shorter { length result.1.now < length text.now }
    ensures utf8 { IsUtf8 result.1.now }
{
    let length = item_length(text.as_bytes());
    if length == text.len() {
        return (text, "");
    }
    (&text[..length], &text[length + 1..])
}

fn is_separator(b: u8) -> bool
    ensures { result ≡ is_separator b }
{
    is_blank(b) || b == b','
}

fn item_length(bytes: &[u8]) -> usize
    ensures value { result ≡ position_or_len is_separator bytes.now }
    ensures within { result ≤ length bytes.now }
{
    bytes.iter().take_while(|b| !is_separator(**b)).count()
}
