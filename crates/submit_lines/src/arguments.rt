ghost use Rattle.std.specs.Prelude.{◌≡◌, ◌<◌, ◌==◌, ◌&&◌, ◌++◌, IfOk, IfSome, IsUtf8, MatchOption, None, length, slice_index};
ghost use Rattle.std.specs.Option.{option_map};
ghost use Rattle.submit_lines.specs.Arguments.{plain_arguments, paired, quoted_arguments};

use crate::cut::{between, run_before};
use ad_value::{Memory, Text};
use std::alloc::Global;

/// Arguments without quotes round them: each `\"` is a `"`, and any other backslash or quote stands
/// for itself. Computes in O(bytes).
pub fn plain_arguments(alloc: Global, text: &str) -> Result<Text, Memory>
    ensures { IfOk result (λ t. t ≡ plain_arguments text.now) }
{
    let mut arguments = String::new(alloc);
    let mut rest = text;
    while !rest.is_empty() {
        let (piece, after) = next_piece(rest);
        arguments.push_str(piece)?;
        rest = after;
    }
    Ok(Text::from(arguments))
}

// What stands first, and the text after it.
#[tactic(auto, using(crate::proofs::Pieces::plain_pieces, crate::proofs::Boundaries::past_first))]
fn next_piece(text: &str) -> (&str, &str)
    requires { 0 < length text.now }
    ensures value { plain_arguments text.now ≡ result.0.now ++ plain_arguments result.1.now }
    ensures shorter { length result.1.now < length text.now }
    ensures utf8 { IsUtf8 result.1.now }
{
    if is_pair(text, b'\\', b'"') {
        ("\"", &text[2..])
    } else if text.starts_with('\\') {
        ("\\", &text[1..])
    } else {
        let run = run_before(text, b'\\');
        (&text[..run], &text[run..])
    }
}

// Whether these are the first two bytes.
fn is_pair(text: &str, first: u8, second: u8) -> bool
    requires { 0 < second }
    ensures { result
        ≡ ((slice_index text.now 0 == first) && (slice_index text.now 1 == second)) }
{
    let bytes = text.as_bytes();
    bytes.len() >= 2 && bytes[0] == first && bytes[1] == second
}

/// Arguments between double quotes, within which two quotes are one. `None` exactly where the last
/// quote does not stand at the end. Computes in O(bytes).
pub fn quoted_arguments(alloc: Global, text: &str) -> Result<Option<Text>, Memory>
    ensures { IfOk result (λ t. t ≡ quoted_arguments text.now) }
{
    match between(text, b'"', b'"') {
        Some(inner) => paired(alloc, inner),
        None => Ok(None),
    }
}

// The text with one quote for each two. None where one stands alone.
fn paired(alloc: Global, text: &str) -> Result<Option<Text>, Memory>
    ensures { IfOk result (λ t. t ≡ paired text.now) }
{
    let mut arguments = String::new(alloc);
    let mut rest = text;
    while !rest.is_empty() {
        let Some((piece, after)) = next_paired(rest) else {
            return Ok(None);
        };
        arguments.push_str(piece)?;
        rest = after;
    }
    Ok(Some(Text::from(arguments)))
}

// What stands first, and the text after it. None for a quote alone.
#[tactic(auto, using(crate::proofs::Pieces::paired_pieces))]
fn next_paired(text: &str) -> Option<(&str, &str)>
    requires { 0 < length text.now }
    ensures value { MatchOption result (paired text.now ≡ None) (λ x.
        paired text.now ≡ option_map (λ r. x.0.now ++ r) (paired x.1.now)) }
    ensures shorter { IfSome result (λ x. length x.1.now < length text.now) }
    ensures utf8 { IfSome result (λ x. IsUtf8 x.1.now) }
{
    if is_pair(text, b'"', b'"') {
        Some(("\"", &text[2..]))
    } else if text.starts_with('"') {
        None
    } else {
        let run = run_before(text, b'"');
        Some((&text[..run], &text[run..]))
    }
}
