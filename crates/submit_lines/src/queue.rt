ghost use Rattle.std.specs.Prelude.{◌≡◌, IfOk};
ghost use Rattle.submit_lines.specs.Queue.{copies_over, bracketed_items, over_named, counted, queue_of};

use crate::items::bracketed_items;
use crate::name::{cut_name, is_in, is_variable};
use crate::number::decimal;
use ad_token::trimmed_text;
use ad_value::{Memory, Text, TextList};
use std::alloc::Global;

/// What a queue statement asks for.
#[derive(Drop)]
pub struct Queue {
    /// How many jobs there are for each item, or in all where there are no items; `u64::MAX` for
    /// any number above it.
    pub copies: u64,
    /// The items, where the statement has a list of them.
    pub over: Option<Over>,
}

/// The items of a queue statement, and how they are called.
#[derive(Drop)]
pub struct Over {
    pub variable: Text,
    pub items: TextList,
}

/// What a queue statement asks for, after macros were replaced. `None` exactly where it is of no
/// form: `queue`, `queue N`, `queue V in (items)`, `queue in (items)`, whose V is `Item`, and
/// `queue N V in (items)`. Computes in O(bytes).
pub fn read_queue(alloc: Global, statement: &str) -> Result<Option<Queue>, Memory>
    ensures { IfOk result (λ q. q ≡ queue_of statement.now) }
{
    let (_, text) = cut_name(trimmed_text(statement));
    if text.is_empty() {
        return Ok(Some(Queue {
            copies: 1,
            over: None,
        }));
    }
    let (word, rest) = cut_name(text);
    if is_in(word) {
        return over_items(alloc, 1, "Item", rest);
    }
    match decimal(word) {
        Some(copies) => counted(alloc, copies, rest),
        None => over_named(alloc, 1, text),
    }
}

// What follows a number.
fn counted(alloc: Global, copies: u64, rest: &str) -> Result<Option<Queue>, Memory>
    ensures { IfOk result (λ q. q ≡ counted copies rest.now) }
{
    if rest.is_empty() {
        return Ok(Some(Queue { copies, over: None }));
    }
    over_named(alloc, copies, rest)
}

// `V in (items)`
fn over_named(alloc: Global, copies: u64, text: &str) -> Result<Option<Queue>, Memory>
    ensures { IfOk result (λ q. q ≡ over_named copies text.now) }
{
    let (variable, after) = cut_name(text);
    let (word, rest) = cut_name(after);
    if !is_variable(variable) || !is_in(word) {
        return Ok(None);
    }
    over_items(alloc, copies, variable, rest)
}

// `(items)`
fn over_items(
    alloc: Global,
    copies: u64,
    variable: &str,
    text: &str,
) -> Result<Option<Queue>, Memory>
    ensures { IfOk result (λ q.
        q ≡ copies_over copies variable.now (bracketed_items text.now)) }
{
    let variable = Text::from_str(alloc, variable)?;
    match bracketed_items(alloc, text) {
        Ok(Some(items)) => Ok(Some(Queue {
            copies,
            over: Some(Over { variable, items }),
        })),
        Ok(None) => Ok(None),
        Err(memory) => Err(memory),
    }
}
