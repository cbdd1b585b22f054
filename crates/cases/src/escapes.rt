ghost use Rattle.std.specs.Prelude.{◌<◌, IfSome, length};

use std::alloc::{AllocError, Global};
use std::fmt::Write;

// The bytes that an escaped text stands for; none where an escape is broken.
pub(crate) fn unescape(alloc: Global, escaped: &[u8]) -> Result<Option<Vec<u8>>, AllocError> {
    let mut bytes = Vec::with_capacity(alloc, escaped.len())?;
    let mut rest = escaped;
    while !rest.is_empty() {
        let Some((byte, after)) = first_byte(rest) else {
            return Ok(None);
        };
        bytes.push(byte)?;
        rest = after;
    }
    Ok(Some(bytes))
}

// The first byte that an escaped text stands for, and the rest of the text.
fn first_byte(escaped: &[u8]) -> Option<(u8, &[u8])>
    ensures { IfSome result (λ p. length p.1.now < length escaped.now) }
{
    match escaped {
        [b'\\', b'\\', rest @ ..] => Some((b'\\', rest)),
        [b'\\', b't', rest @ ..] => Some((b'\t', rest)),
        [b'\\', b'n', rest @ ..] => Some((b'\n', rest)),
        [b'\\', b'r', rest @ ..] => Some((b'\r', rest)),
        [b'\\', b'x', high, low, rest @ ..] => Some((digit(*high)? * 16 + digit(*low)?, rest)),
        [] | [b'\\', ..] => None,
        [byte, rest @ ..] => Some((*byte, rest)),
    }
}

fn digit(byte: u8) -> Option<u8>
    ensures { IfSome result (λ d. d < 16) }
{
    match byte {
        b'0'..=b'9' => Some(byte - b'0'),
        b'a'..=b'f' => Some(byte - b'a' + 10),
        _ => None,
    }
}

/// Appends a text as a field of an answer, with its escapes. Computes in O(bytes).
pub fn escape(text: &str, out: &mut String) -> Result<(), AllocError> {
    for letter in text.chars() {
        escape_letter(letter, out)?;
    }
    Ok(())
}

fn escape_letter(letter: char, out: &mut String) -> Result<(), AllocError> {
    match letter {
        '\\' => out.push_str("\\\\"),
        '\t' => out.push_str("\\t"),
        '\n' => out.push_str("\\n"),
        '\r' => out.push_str("\\r"),
        '\0'..='\x1f' | '\x7f' => {
            let code = u32::from(letter);
            write!(out, "\\x{code:02x}")
        }
        _ => out.push(letter),
    }
}
