ghost use Rattle.std.specs.Prelude.{◌≡◌, ◌<◌, ◌≤◌, length, true};
ghost use Rattle.std.specs.List.{list_any};
ghost use Rattle.std.specs.Str.{all_ascii_digits};
ghost use Rattle.ad_token.specs.Numbers.{digits_length, fraction_length, sign_length, signed_length, exponent_length, tail_length, is_positive_digit, integer_token, number_token, point_token};

use crate::token::Token;

fn digits_length(bytes: &[u8]) -> usize
    ensures value { result ≡ digits_length bytes.now }
    ensures within { result ≤ length bytes.now }
{
    bytes.iter().take_while(|b| b.is_ascii_digit()).count()
}

#[tactic(auto, unfolding(crate::specs::Numbers::fraction_length))]
fn fraction_length(bytes: &[u8]) -> usize
    ensures value { result ≡ fraction_length bytes.now }
    ensures within { result ≤ length bytes.now }
{
    match bytes {
        [b'.', rest @ ..] => 1 + digits_length(rest),
        _ => 0,
    }
}

#[tactic(auto, unfolding(crate::specs::Numbers::sign_length))]
fn sign_length(bytes: &[u8]) -> usize
    ensures value { result ≡ sign_length bytes.now }
    ensures within { result ≤ length bytes.now }
{
    match bytes {
        [b'+' | b'-', ..] => 1,
        _ => 0,
    }
}

fn signed_length(bytes: &[u8]) -> usize
    ensures value { result ≡ signed_length bytes.now }
    ensures within { result ≤ length bytes.now }
{
    let sign = sign_length(bytes);
    let digits = digits_length(&bytes[sign..]);
    if digits == 0 { 0 } else { sign + digits }
}

#[tactic(auto, unfolding(crate::specs::Numbers::exponent_length))]
fn exponent_length(bytes: &[u8]) -> usize
    ensures value { result ≡ exponent_length bytes.now }
    ensures within { result ≤ length bytes.now }
{
    match bytes {
        [b'e' | b'E', rest @ ..] => match signed_length(rest) {
            0 => 0,
            length => 1 + length,
        },
        _ => 0,
    }
}

fn tail_length(bytes: &[u8]) -> usize
    ensures value { result ≡ tail_length bytes.now }
    ensures within { result ≤ length bytes.now }
{
    let fraction = fraction_length(bytes);
    fraction + exponent_length(&bytes[fraction..])
}

fn has_positive_digit(bytes: &[u8]) -> bool
    ensures { result ≡ list_any is_positive_digit bytes.now }
{
    bytes.iter().any(|b| (b'1'..=b'9').contains(b))
}

#[tactic(auto, using(crate::proofs::Prefixes::too_large))]
fn integer_token(digits: &str) -> Token
    requires some { 0 < length digits.now }
    requires digits { all_ascii_digits digits.now ≡ true }
    ensures { result ≡ integer_token digits.now }
{
    match digits.parse() {
        Ok(n) => Token::Int(n),
        Err(_) => Token::Range,
    }
}

/// The token that begins with a digit, and its length in bytes. Computes in O(bytes of the token).
#[tactic(auto, unfolding(crate::specs::Numbers::number_token))]
pub fn number_token(text: &str) -> (Token, usize)
    requires { 0 < digits_length text.now }
    ensures { result ≡ number_token text.now }
{
    let whole = digits_length(text.as_bytes());
    #[tactic(auto, using(crate::proofs::Prefixes::digits_boundary))]
    let (digits, after) = text.split_at(whole);
    let tail = tail_length(after.as_bytes());
    #[tactic(auto, using(crate::proofs::Prefixes::are_digits))]
    let token = if has_positive_digit(&after.as_bytes()[..tail]) {
        Token::Real
    } else {
        integer_token(digits)
    };
    (token, whole + tail)
}

/// The token that begins with a dot, which stands in no expression, and its length in bytes.
/// Computes in O(bytes of the digits after the dot).
#[tactic(auto, unfolding(crate::specs::Numbers::point_token))]
pub fn point_token(bytes: &[u8]) -> (Token, usize)
    requires { 0 < length bytes.now }
    ensures { result ≡ point_token bytes.now }
{
    let token = if digits_length(&bytes[1..]) > 0 {
        Token::Real
    } else {
        Token::Bad
    };
    (token, 1)
}
