ghost use Rattle.std.specs.Prelude.{◌≡◌, ◌<◌, ◌^◌, ◌-◌, min, length, drop, slice_index, not, true};
ghost use Rattle.std.specs.Char.{is_ascii_digit};
ghost use Rattle.std.specs.List.{list_any};
ghost use Rattle.std.specs.Str.{all_ascii_digits};
ghost use Rattle.std.specs.Str.Parse.{digits_value};
ghost use Rattle.submit_lines.specs.Numbers.{is_decimal, decimal, positive, negative, integer};

/// The number that a text says in decimal digits without sign and without leading zeros, or
/// `u64::MAX` for one above it. `None` exactly where the text is not of this form. Computes in
/// O(bytes).
pub fn decimal(text: &str) -> Option<u64>
    ensures { result ≡ decimal text.now }
{
    if is_decimal(text) {
        Some(number(text))
    } else {
        None
    }
}

// The number of the digits, or `u64::MAX` for one above it.
#[tactic(auto, using(crate::proofs::Numbers::number_small, crate::proofs::Numbers::number_large))]
fn number(digits: &str) -> u64
    requires some { 0 < length digits.now }
    requires digits { all_ascii_digits digits.now ≡ true }
    ensures { result ≡ min (digits_value 10 digits.now) (2 ^ 64 - 1) }
{
    match digits.parse::<u64>() {
        Ok(n) => n,
        Err(_) => u64::MAX,
    }
}

/// The integer that a text says, like `decimal` but perhaps with a minus. `None` exactly where the
/// text is not of this form, or the integer is out of range. Computes in O(bytes).
pub fn integer(text: &str) -> Option<i64>
    ensures { result ≡ integer text.now }
{
    if text.starts_with('-') {
        return negative(text);
    }
    if is_decimal(text) {
        digits_alone(text)
    } else {
        None
    }
}

// The integer after a minus.
fn negative(text: &str) -> Option<i64>
    requires { slice_index text.now 0 ≡ 45 }
    ensures { result ≡ negative (drop 1 text.now) }
{
    if is_decimal_bytes(&text.as_bytes()[1..]) {
        minus_and_digits(text)
    } else {
        None
    }
}

fn minus_and_digits(text: &str) -> Option<i64>
    requires minus { slice_index text.now 0 ≡ 45 }
    requires form { is_decimal (drop 1 text.now) ≡ true }
    ensures { result ≡ negative (drop 1 text.now) }
{
    match text.parse::<i64>() {
        Ok(n) => Some(n),
        Err(_) => None,
    }
}

fn digits_alone(text: &str) -> Option<i64>
    requires { is_decimal text.now ≡ true }
    ensures { result ≡ positive text.now }
{
    match text.parse::<i64>() {
        Ok(n) => Some(n),
        Err(_) => None,
    }
}

/// Whether a text is decimal digits without a leading zero. Computes in O(bytes).
pub(crate) fn is_decimal(text: &str) -> bool
    ensures { result ≡ is_decimal text.now }
{
    is_decimal_bytes(text.as_bytes())
}

fn is_decimal_bytes(bytes: &[u8]) -> bool
    ensures { result ≡ is_decimal bytes.now }
{
    !bytes.is_empty() && are_digits(bytes) && (bytes.len() == 1 || bytes[0] != b'0')
}

fn are_digits(bytes: &[u8]) -> bool
    ensures { result ≡ all_ascii_digits bytes.now }
{
    !has_other(bytes)
}

// Whether a byte is no digit.
fn has_other(bytes: &[u8]) -> bool
    ensures { result ≡ list_any (λ b. not (is_ascii_digit b)) bytes.now }
{
    bytes.iter().any(|b| !b.is_ascii_digit())
}
