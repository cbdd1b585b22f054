ghost use Rattle.std.specs.Prelude.{◌≡◌, ◌↔◌, ℕ, IsTrue, decimal};
ghost use Rattle.ad_value.specs.Decimals.{IsNumber};

use itoa::Buffer;

/// The number that a text is, in decimal digits without sign and without leading zeros; `None` for
/// any other text, and for a number of 2 to the 64 or more. Computes in O(bytes), without memory.
pub fn number_in(text: &str) -> Option<u64>
    ensures { (n : ℕ) → (result ≡ Some n) ↔ IsNumber text.now n }
{
    let number = lenient_number(text)?;
    if is_number(text, number) {
        Some(number)
    } else {
        None
    }
}

// The number that a text reads as, perhaps with a sign or leading zeros.
fn lenient_number(text: &str) -> Option<u64>
    ensures { (n : ℕ) → IsNumber text.now n → result ≡ Some n }
{
    text.parse::<u64>().ok()
}

// Whether a text is that number's, without a sign or leading zeros.
fn is_number(text: &str, number: u64) -> bool
    ensures { IsTrue result ↔ (text.now ≡ decimal number) }
{
    let mut buffer = Buffer::new();
    buffer.format(number) == text
}
