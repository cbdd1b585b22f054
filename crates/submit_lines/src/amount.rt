ghost use Rattle.std.specs.Prelude.{◌≡◌, ◌≤◌, ◌<◌, ◌^◌, nat_lt, length, true, Some, None, if◌then◌else◌};
ghost use Rattle.std.specs.Str.{all_ascii_digits};
ghost use Rattle.std.specs.Str.Parse.{digits_value};
ghost use Rattle.submit_lines.specs.Amounts.{digits_length, suffix_of, in_units, units, amount_with, amount_of};

use crate::number::is_decimal;

/// In which unit an amount is asked for.
#[derive(Clone, Copy)]
pub enum AmountUnit {
    /// Of 1,024 bytes.
    Kib,
    /// Of 1,048,576 bytes.
    Mib,
}

/// What a text says of an amount.
#[derive(Clone, Copy)]
pub enum Amount {
    /// It is no amount.
    Absent,
    /// That many units, rounded up.
    Units(i64),
    /// More units than 9223372036854775807.
    Large,
}

// What stands after the digits of an amount.
#[derive(Clone, Copy)]
enum Suffix {
    Plain,
    Kilo,
    Mega,
    Giga,
    Tera,
}

/// The amount that a text says: digits without a leading zero, and perhaps K, M, G or T and then
/// perhaps B, without case, each 1,024 of the one before; without a suffix they count the unit.
/// Computes in O(bytes).
#[tactic(auto, using(crate::proofs::Boundaries::digits_boundary))]
pub fn read_amount(text: &str, unit: AmountUnit) -> Amount
    ensures { result ≡ amount_of text.now unit }
{
    let (digits, rest) = text.split_at(digits_length(text.as_bytes()));
    match suffix_of(rest) {
        Some(suffix) => amount_with(digits, suffix, unit),
        None => Amount::Absent,
    }
}

fn digits_length(bytes: &[u8]) -> usize
    ensures value { result ≡ digits_length bytes.now }
    ensures within { result ≤ length bytes.now }
{
    bytes.iter().take_while(|b| b.is_ascii_digit()).count()
}

#[tactic(auto, unfolding(crate::specs::Amounts::suffix_of))]
fn suffix_of(text: &str) -> Option<Suffix>
    ensures { result ≡ suffix_of text.now }
{
    if text.is_empty() {
        Some(Suffix::Plain)
    } else if text.eq_ignore_ascii_case("K") || text.eq_ignore_ascii_case("KB") {
        Some(Suffix::Kilo)
    } else if text.eq_ignore_ascii_case("M") || text.eq_ignore_ascii_case("MB") {
        Some(Suffix::Mega)
    } else if text.eq_ignore_ascii_case("G") || text.eq_ignore_ascii_case("GB") {
        Some(Suffix::Giga)
    } else if text.eq_ignore_ascii_case("T") || text.eq_ignore_ascii_case("TB") {
        Some(Suffix::Tera)
    } else {
        None
    }
}

fn amount_with(digits: &str, suffix: Suffix, unit: AmountUnit) -> Amount
    ensures { result ≡ amount_with digits.now (Some suffix) unit }
{
    if !is_decimal(digits) {
        return Amount::Absent;
    }
    #[tactic(auto, using(crate::proofs::Numbers::large_in_units))]
    match small_number(digits) {
        Some(n) => units(in_units(n, suffix, unit)),
        None => Amount::Large,
    }
}

// The number of the digits. None where it is 2^73 or more: so many KiB, and so many of any larger
// unit, are 2^63 MiB or more.
#[tactic(auto, using(crate::proofs::Numbers::wide_small, crate::proofs::Numbers::wide_large))]
fn small_number(digits: &str) -> Option<u128>
    requires some { 0 < length digits.now }
    requires digits { all_ascii_digits digits.now ≡ true }
    ensures { result
        ≡ (if nat_lt (digits_value 10 digits.now) (2 ^ 73) then Some (digits_value 10 digits.now)
        else None) }
{
    match digits.parse::<u128>() {
        Ok(n) if n < 9_444_732_965_739_290_427_392 => Some(n),
        _ => None,
    }
}

fn in_units(n: u128, suffix: Suffix, unit: AmountUnit) -> u128
    requires { n < 2 ^ 73 }
    ensures { result ≡ in_units n suffix unit }
{
    match (suffix, unit) {
        (Suffix::Plain, _) => n,
        (Suffix::Kilo, AmountUnit::Kib) => n,
        (Suffix::Kilo, AmountUnit::Mib) => (n + 1023) / 1024,
        (Suffix::Mega, AmountUnit::Kib) => n * 1024,
        (Suffix::Mega, AmountUnit::Mib) => n,
        (Suffix::Giga, AmountUnit::Kib) => n * 1_048_576,
        (Suffix::Giga, AmountUnit::Mib) => n * 1024,
        (Suffix::Tera, AmountUnit::Kib) => n * 1_073_741_824,
        (Suffix::Tera, AmountUnit::Mib) => n * 1_048_576,
    }
}

fn units(n: u128) -> Amount
    ensures { result ≡ units n }
{
    if n < 9_223_372_036_854_775_808 {
        Amount::Units(n as i64)
    } else {
        Amount::Large
    }
}
