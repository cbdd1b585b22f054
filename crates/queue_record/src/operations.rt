// What the words behind the code of an operation say.

ghost use Rattle.std.specs.Prelude.{◌≡◌, ◌≢◌, Some, None, [], IfOk};
ghost use Rattle.std.specs.Option.{option_map};
ghost use Rattle.ad_tree.specs.Tree.{tree};
ghost use Rattle.ad_parse.specs.ExprText.{expression_at};
ghost use Rattle.queue_tx.specs.Operations.{operation, new_ad, set_attr};
ghost use Rattle.queue_record.specs.Entries.{next_key, new_at, new_with, new_from, destroy_at, set_at, set_with, set_from, set_to, delete_at, delete_with, delete_from, tree_in};

use crate::key::key_of;
use crate::words::{are_blanks, begins_blank, next_word};
use ad_parse::{ParseError, parse_expr};
use ad_token::{is_name, past_blanks};
use ad_tree::Expr;
use ad_value::{Memory, Text};
use queue_tx::{Key, Op};
use std::alloc::Global;

// The key behind one blank, and what follows it.
fn next_key(text: &str) -> Option<(Key, &str)>
    ensures { option_map (λ p. (p.0, p.1.now)) result ≡ next_key text.now }
{
    let (word, after) = next_word(text)?;
    let key = key_of(word)?;
    Some((key, after))
}

// `101 KEY`, and no word, one or two.
#[tactic(auto, unfolding(crate::specs::Entries::new_at))]
pub(crate) fn new_ad(alloc: Global, after: &str) -> Result<Option<Op>, Memory>
    ensures { IfOk result (λ op. option_map operation op ≡ new_at after.now) }
{
    match next_key(after) {
        Some((key, after)) => new_ad_with(alloc, key, after),
        None => Ok(None),
    }
}

fn new_ad_with(alloc: Global, key: Key, after: &str) -> Result<Option<Op>, Memory>
    ensures { IfOk result (λ op. option_map operation op ≡ new_with key after.now) }
{
    if are_blanks(after) {
        return new_ad_of(alloc, key, "", "");
    }
    match next_word(after) {
        Some((kind, after)) => new_ad_from(alloc, key, kind, after),
        None => Ok(None),
    }
}

fn new_ad_from(alloc: Global, key: Key, kind: &str, after: &str) -> Result<Option<Op>, Memory>
    ensures { IfOk result (λ op. option_map operation op ≡ new_from key kind.now after.now) }
{
    if are_blanks(after) {
        return new_ad_of(alloc, key, kind, "");
    }
    match next_word(after) {
        Some((other, after)) if are_blanks(after) => new_ad_of(alloc, key, kind, other),
        _ => Ok(None),
    }
}

fn new_ad_of(alloc: Global, key: Key, kind: &str, other: &str) -> Result<Option<Op>, Memory>
    ensures { IfOk result
        (λ op. option_map operation op ≡ Some (new_ad key kind.now other.now)) }
{
    let kind = Text::from_str(alloc, kind)?;
    let other = Text::from_str(alloc, other)?;
    Ok(Some(Op::NewAd { key, kind, other }))
}

// `102 KEY`.
#[tactic(auto, unfolding(crate::specs::Entries::destroy_at))]
pub(crate) fn destroy_ad(after: &str) -> Option<Op>
    ensures { option_map operation result ≡ destroy_at after.now }
{
    let (key, after) = next_key(after)?;
    if are_blanks(after) {
        Some(Op::DestroyAd { key })
    } else {
        None
    }
}

// `103 KEY NAME EXPRESSION`.
#[tactic(auto, unfolding(crate::specs::Entries::set_at))]
pub(crate) fn set_attr(alloc: Global, after: &str) -> Result<Option<Op>, Memory>
    ensures { IfOk result (λ op. option_map operation op ≡ set_at after.now) }
{
    match next_key(after) {
        Some((key, after)) => set_attr_with(alloc, key, after),
        None => Ok(None),
    }
}

fn set_attr_with(alloc: Global, key: Key, after: &str) -> Result<Option<Op>, Memory>
    ensures { IfOk result (λ op. option_map operation op ≡ set_with key after.now) }
{
    match next_word(after) {
        Some((name, after)) => set_attr_from(alloc, key, name, after),
        None => Ok(None),
    }
}

fn set_attr_from(alloc: Global, key: Key, name: &str, after: &str) -> Result<Option<Op>, Memory>
    ensures { IfOk result (λ op. option_map operation op ≡ set_from key name.now after.now) }
{
    if !is_name(name) || !begins_blank(after) {
        return Ok(None);
    }
    set_attr_to(alloc, key, name, past_blanks(after))
}

fn set_attr_to(alloc: Global, key: Key, name: &str, text: &str) -> Result<Option<Op>, Memory>
    ensures { IfOk result (λ op. option_map operation op ≡ set_to key name.now text.now) }
{
    match expression_in(alloc, text) {
        Ok(Some(expr)) => set_attr_of(alloc, key, name, expr),
        Ok(None) => Ok(None),
        Err(Memory) => Err(Memory),
    }
}

fn set_attr_of(alloc: Global, key: Key, name: &str, expr: Expr) -> Result<Option<Op>, Memory>
    ensures { IfOk result
        (λ op. option_map operation op ≡ Some (set_attr key name.now (tree expr))) }
{
    let name = Text::from_str(alloc, name)?;
    Ok(Some(Op::SetAttr { key, name, expr }))
}

// The expression that a text says; none where it says none.
fn expression_in(alloc: Global, text: &str) -> Result<Option<Expr>, Memory>
    ensures { IfOk result (λ e. option_map tree e ≡ tree_in (expression_at text.now)) }
{
    match parse_expr(alloc, text) {
        Ok(expr) => Ok(Some(expr)),
        Err(error) => no_expression(error),
    }
}

// No expression, but where the reader ran out of memory.
fn no_expression(error: ParseError) -> Result<Option<Expr>, Memory>
    ensures { IfOk result (λ e. (e ≡ None) × (error ≢ ParseError.Memory)) }
{
    match error {
        ParseError::Memory => Err(Memory),
        ParseError::TooLong { .. } | ParseError::Real { .. } => Ok(None),
        ParseError::Range { .. } | ParseError::TooDeep { .. } => Ok(None),
        ParseError::Syntax { .. } => Ok(None),
    }
}

// `104 KEY NAME`.
#[tactic(auto, unfolding(crate::specs::Entries::delete_at))]
pub(crate) fn delete_attr(alloc: Global, after: &str) -> Result<Option<Op>, Memory>
    ensures { IfOk result (λ op. option_map operation op ≡ delete_at after.now) }
{
    match next_key(after) {
        Some((key, after)) => delete_attr_with(alloc, key, after),
        None => Ok(None),
    }
}

fn delete_attr_with(alloc: Global, key: Key, after: &str) -> Result<Option<Op>, Memory>
    ensures { IfOk result (λ op. option_map operation op ≡ delete_with key after.now) }
{
    match next_word(after) {
        Some((name, after)) => delete_attr_from(alloc, key, name, after),
        None => Ok(None),
    }
}

fn delete_attr_from(alloc: Global, key: Key, name: &str, after: &str) -> Result<Option<Op>, Memory>
    ensures { IfOk result (λ op. option_map operation op ≡ delete_from key name.now after.now) }
{
    if !is_name(name) || !are_blanks(after) {
        return Ok(None);
    }
    let name = Text::from_str(alloc, name)?;
    Ok(Some(Op::DeleteAttr { key, name }))
}
