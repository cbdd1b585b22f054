ghost use Rattle.std.specs.Prelude.{◌≡◌, ◌<◌, IfOk, length};
ghost use Rattle.ad_token.specs.Lexing.{is_blank, ends_the_tokens, token_at, tokens_of};

use crate::marks::mark_token;
use crate::names::{is_letter, name_token};
use crate::numbers::{number_token, point_token};
use crate::strings::string_token;
use crate::token::{Placed, Token};
use ad_value::Memory;
use std::alloc::Global;

/// Whether a byte is a space or a tab. Computes in O(1).
pub fn is_blank(b: u8) -> bool
    ensures { result ≡ is_blank b }
{
    b == b' ' || b == b'\t'
}

// Whether a token stands in no expression.
fn ends_the_tokens(token: &Token) -> bool
    ensures { result ≡ ends_the_tokens token.now }
{
    matches!(token, Token::Real | Token::Range | Token::Bad)
}

// The token that a text begins with, and its length in bytes. The length of a token that stands in
// no expression tells nothing.
#[tactic(auto, unfolding(crate::specs::Lexing::token_at))]
fn next_token(alloc: Global, text: &str) -> Result<(Token, usize), Memory>
    requires { 0 < length text.now }
    ensures { IfOk result (λ t. t ≡ token_at text.now) }
{
    let first = text.as_bytes()[0];
    if is_letter(first) {
        name_token(alloc, text)
    } else if first.is_ascii_digit() {
        Ok(number_token(text))
    } else if first == b'"' {
        string_token(alloc, text)
    } else if first == b'.' {
        Ok(point_token(text.as_bytes()))
    } else {
        Ok(mark_token(text.as_bytes()))
    }
}

/// The tokens of a text and their offsets in bytes, up to the first that stands in no expression
/// and with it (HTCondor manual, "ClassAd syntax"). Fails only where memory runs out. Computes in
/// O(bytes).
pub fn tokens(alloc: Global, text: &str) -> Result<Vec<Placed>, Memory>
    ensures { IfOk result (λ v. v.items ≡ tokens_of text.now) }
{
    let mut list = Vec::new(alloc);
    let mut at = 0u64;
    let mut rest = text;
    while !rest.is_empty() {
        if is_blank(rest.as_bytes()[0]) {
            let (_, after) = rest.split_at(1);
            rest = after;
            at += 1;
            continue;
        }
        let (token, length) = next_token(alloc, rest)?;
        let ends = ends_the_tokens(&token);
        list.push(Placed { at, token })?;
        if ends {
            return Ok(list);
        }
        let (_, after) = rest.split_at(length);
        rest = after;
        at += length as u64;
    }
    Ok(list)
}
