// Lines of the file of boots.

ghost use Rattle.std.specs.Prelude.{◌≡◌, ◌↔◌, ◌++◌, ◌∷◌, [], ℕ, IfOk, MatchOption, decimal};
ghost use Rattle.ad_value.specs.Bytes.{code};
ghost use Rattle.ad_value.specs.Decimals.{IsNumber};
ghost use Rattle.pool_store.specs.Boots.{boot_lines, HasNoNewline, IsBoot};

use crate::boots::LAST_BOOT;
use ad_value::{Memory, Text, number_in};
use memchr::memchr;
use std::alloc::Global;

/// The line that a boot appends: its number, and a newline. Computes in O(1).
pub fn boot_line(alloc: Global, number: u32) -> Result<Text, Memory>
    ensures { IfOk result (λ text. text ≡ boot_lines (number ∷ [])) }
{
    Ok(Text::from(format!(in alloc; "{number}\n")?))
}

// The first line of bytes, without its newline, and the bytes after it; none where there is no
// newline.
pub(crate) fn line_before(bytes: &[u8]) -> Option<(&[u8], &[u8])>
    ensures { MatchOption result (HasNoNewline bytes.now) (λ p. HasNoNewline p.0.now
        × (bytes.now ≡ p.0.now ++ code "\n" ∷ p.1.now)) }
{
    let end = memchr(b'\n', bytes)?;
    Some((&bytes[..end], &bytes[end + 1..]))
}

// The number of a boot that a line is, in decimal digits without leading zeros.
pub(crate) fn boot_in(line: &[u8]) -> Option<u32>
    ensures { (n : ℕ) → (result ≡ Some n) ↔ (IsBoot n × (line.now ≡ decimal n)) }
{
    let number = number_on(line)?;
    if number == 0 || number > u64::from(LAST_BOOT) {
        return None;
    }
    Some(number as u32)
}

// The number that a line is.
fn number_on(line: &[u8]) -> Option<u64>
    ensures { (n : ℕ) → (result ≡ Some n) ↔ IsNumber line.now n }
{
    match str::from_utf8(line) {
        Ok(text) => number_in(text),
        Err(_) => None,
    }
}
