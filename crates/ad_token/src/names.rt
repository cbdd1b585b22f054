ghost use Rattle.std.specs.Prelude.{◌≡◌, ◌≤◌, IfOk, length, slice_index, is_some};
ghost use Rattle.std.specs.List.{prefix_len, list_all};
ghost use Rattle.ad_token.specs.Names.{is_letter, is_name_byte, name_length, leading_name, is_too_long, word_of, scope_of_prefix, unless_word, name_after_dot, bare_name, scope_prefix_token, name_token, is_name};

use crate::token::Token;
use ad_tree::{BinOp, Scope};
use ad_value::{Memory, Text};
use std::alloc::Global;

/// How many bytes the longest name has.
pub const MAX_NAME: usize = 128;

/// Whether a byte begins a name. Computes in O(1).
pub fn is_letter(b: u8) -> bool
    ensures { result ≡ is_letter b }
{
    b.is_ascii_alphabetic() || b == b'_'
}

fn is_name_byte(b: u8) -> bool
    ensures { result ≡ is_name_byte b }
{
    is_letter(b) || b.is_ascii_digit()
}

// How many bytes may stand in a name, up to the first that may not.
fn run_length(bytes: &[u8]) -> usize
    ensures value { result ≡ prefix_len is_name_byte bytes.now }
    ensures within { result ≤ length bytes.now }
{
    bytes.iter().take_while(|b| is_name_byte(**b)).count()
}

/// How many bytes the name has that bytes begin with, 0 where none begins. Computes in O(bytes of
/// the name).
pub fn name_length(bytes: &[u8]) -> usize
    ensures value { result ≡ name_length bytes.now }
    ensures within { result ≤ length bytes.now }
{
    match bytes.first() {
        Some(b) if is_letter(*b) => run_length(bytes),
        _ => 0,
    }
}

// The name that a text begins with, empty where none begins.
#[tactic(auto, using(crate::proofs::Prefixes::name_boundary))]
fn leading_name(text: &str) -> &str
    ensures { result.now ≡ leading_name text.now }
{
    &text[..name_length(text.as_bytes())]
}

fn is_too_long(name: &str) -> bool
    ensures { result ≡ is_too_long name.now }
{
    name.len() > MAX_NAME
}

// The token of a word that is no name, without ASCII case.
#[tactic(auto, unfolding(crate::specs::Names::word_of))]
fn word(name: &str) -> Option<Token>
    ensures { result ≡ word_of name.now }
{
    if name.eq_ignore_ascii_case("TRUE") {
        Some(Token::True)
    } else if name.eq_ignore_ascii_case("FALSE") {
        Some(Token::False)
    } else if name.eq_ignore_ascii_case("UNDEFINED") {
        Some(Token::Undefined)
    } else if name.eq_ignore_ascii_case("ERROR") {
        Some(Token::Error)
    } else if name.eq_ignore_ascii_case("IS") {
        Some(Token::Op(BinOp::Same))
    } else if name.eq_ignore_ascii_case("ISNT") {
        Some(Token::Op(BinOp::NotSame))
    } else {
        None
    }
}

/// Whether a text is a name: a letter or `_`, then letters, digits and `_`, not too long, and no
/// word. Computes in O(bytes).
#[tactic(auto, unfolding(crate::specs::Names::is_name))]
pub fn is_name(text: &str) -> bool
    ensures { result ≡ is_name text.now }
{
    let bytes = text.as_bytes();
    if !starts_with_letter(bytes) || !are_name_bytes(bytes) {
        return false;
    }
    !is_too_long(text) && !is_word(text)
}

fn starts_with_letter(bytes: &[u8]) -> bool
    ensures { result ≡ is_letter (slice_index bytes.now 0) }
{
    match bytes.first() {
        Some(b) => is_letter(*b),
        None => false,
    }
}

fn are_name_bytes(bytes: &[u8]) -> bool
    ensures { result ≡ list_all is_name_byte bytes.now }
{
    bytes.iter().all(|b| is_name_byte(*b))
}

fn is_word(name: &str) -> bool
    ensures { result ≡ is_some (word_of name.now) }
{
    word(name).is_some()
}

// The scope that a name stands for before a dot.
#[tactic(auto, unfolding(crate::specs::Names::scope_of_prefix))]
fn scope_of_prefix(name: &str) -> Option<Scope>
    ensures { result ≡ scope_of_prefix name.now }
{
    if name.eq_ignore_ascii_case("MY") {
        Some(Scope::My)
    } else if name.eq_ignore_ascii_case("TARGET") {
        Some(Scope::Target)
    } else {
        None
    }
}

fn unless_word(name: &str) -> &str
    ensures { result.now ≡ unless_word name.now }
{
    match word(name) {
        Some(_) => "",
        None => name,
    }
}

#[tactic(auto, unfolding(crate::specs::Names::name_after_dot))]
fn name_after_dot(text: &str) -> &str
    ensures { result.now ≡ name_after_dot text.now }
{
    if !text.starts_with('.') {
        return "";
    }
    #[tactic(auto, using(crate::proofs::Prefixes::past_first))]
    let rest = &text[1..];
    unless_word(leading_name(rest))
}

fn bare_name(alloc: Global, name: &str) -> Result<Token, Memory>
    ensures { IfOk result (λ t. t ≡ bare_name name.now) }
{
    let text = Text::from_str(alloc, name)?;
    Ok(Token::Name {
        scope: Scope::Bare,
        text,
    })
}

// The token of a prefix and of the name after its dot.
#[tactic(auto, unfolding(crate::specs::Names::scope_prefix_token))]
fn scope_prefix_token(
    alloc: Global,
    scope: Scope,
    prefix: &str,
    name: &str,
) -> Result<(Token, usize), Memory>
    requires { length prefix.now ≤ MAX_NAME }
    ensures { IfOk result (λ t. t ≡ scope_prefix_token scope prefix.now name.now) }
{
    if name.is_empty() {
        return Ok((bare_name(alloc, prefix)?, prefix.len()));
    }
    if is_too_long(name) {
        return Ok((bare_name(alloc, prefix)?, prefix.len() + 1));
    }
    let text = Text::from_str(alloc, name)?;
    Ok((Token::Name { scope, text }, prefix.len() + 1 + name.len()))
}

/// The token that begins with a letter, and its length in bytes. Computes in O(bytes of the token).
#[tactic(auto, unfolding(crate::specs::Names::name_token))]
pub fn name_token(alloc: Global, text: &str) -> Result<(Token, usize), Memory>
    ensures { IfOk result (λ t. t ≡ name_token text.now) }
{
    #[tactic(auto, using(crate::proofs::Prefixes::name_boundary))]
    let (name, after) = text.split_at(name_length(text.as_bytes()));
    if is_too_long(name) {
        return Ok((Token::Bad, name.len()));
    }
    if let Some(token) = word(name) {
        return Ok((token, name.len()));
    }
    match scope_of_prefix(name) {
        Some(scope) => scope_prefix_token(alloc, scope, name, name_after_dot(after)),
        None => Ok((bare_name(alloc, name)?, name.len())),
    }
}
