// The values of a configuration's names, once macros are replaced.

ghost use Rattle.std.specs.Prelude.{◌≡◌, ◌≤◌, ◌<◌, ◌^◌, IfOk, IfSome};
ghost use Rattle.std.specs.List.{list_all};
ghost use Rattle.std.specs.Option.{option_map};
ghost use Rattle.ad_token.specs.Names.{is_name_byte};
ghost use Rattle.ad_tree.specs.Tree.{tree};
ghost use Rattle.pool_config.specs.Errors.{Becomes};
ghost use Rattle.pool_config.specs.Settings.{with_value, number_within, expression_in, is_memory, is_machine_byte, is_machine_name};

use crate::config::discard;
use crate::error::ConfigError;
use ad_parse::{ParseError, parse_expr};
use ad_tree::Expr;
use ad_value::Memory;
use std::alloc::Global;
use std::mem::replace;
use submit_lines::decimal;

/// How many seconds a time has at most.
pub const MAX_SECONDS: u64 = 1_000_000;

/// How many slots a ceiling allows at most.
pub const MAX_CEILING: u64 = 256;

/// The greatest priority factor.
pub const MAX_FACTOR: u64 = 1_000_000;

/// The greatest amount of a slot.
pub const MAX_AMOUNT: u64 = 1_000_000_000;

/// How many bytes the longest name of a machine has.
pub const MAX_MACHINE_NAME: usize = 64;

/// The number that a text is, in decimal digits without sign and without leading zeros, where it
/// is within bounds. Computes in O(bytes).
pub(crate) fn number_within(least: u64, most: u64, text: &str) -> Option<u64>
    ensures value { result ≡ number_within least most text.now }
    ensures within { IfSome result (λ n. n ≤ most) }
{
    match decimal(text) {
        Some(n) if least <= n && n <= most => Some(n),
        _ => None,
    }
}

/// As `number_within`, of 32 bits.
pub(crate) fn small_within(least: u64, most: u64, text: &str) -> Option<u32>
    requires { most < 2 ^ 32 }
    ensures { result ≡ number_within least most text.now }
{
    match number_within(least, most, text) {
        Some(n) => Some(n as u32),
        None => None,
    }
}

/// The expression that a text says, if it says one. Computes in O(bytes of the text and of its
/// canonical text).
pub(crate) fn expression_in(alloc: Global, text: &str) -> Result<Option<Expr>, Memory>
    ensures { IfOk result (λ e. option_map tree e ≡ expression_in text.now) }
{
    match parse_expr(alloc, text) {
        Ok(expr) => Ok(Some(expr)),
        Err(error) => {
            if is_memory(error) {
                return Err(Memory);
            }
            Ok(None)
        }
    }
}

/// Sets an expression to the one that a text of line `line` says. Computes in O(bytes of the text
/// and of its canonical text).
pub(crate) fn set_expression(
    expr: &mut Expr,
    alloc: Global,
    text: &str,
    line: u32,
) -> Result<(), ConfigError>
    ensures { Becomes (tree expr.new) result
        (with_value line (λ e. e) (expression_in text.now)) }
{
    match expression_in(alloc, text)? {
        Some(said) => {
            discard(replace(expr, said));
            Ok(())
        }
        None => Err(ConfigError::BadValue { line }),
    }
}

fn is_memory(error: ParseError) -> bool
    ensures { result ≡ is_memory error }
{
    matches!(error, ParseError::Memory)
}

/// Whether a machine may be called so: from 1 to 64 letters, digits, `_`, `-` and `.`. Computes in
/// O(bytes).
pub(crate) fn is_machine_name(text: &str) -> bool
    ensures { result ≡ is_machine_name text.now }
{
    !text.is_empty() && text.len() <= MAX_MACHINE_NAME && are_machine_bytes(text.as_bytes())
}

fn are_machine_bytes(bytes: &[u8]) -> bool
    ensures { result ≡ list_all is_machine_byte bytes.now }
{
    bytes.iter().all(|b| is_machine_byte(*b))
}

/// Whether a byte is a letter, a digit or `_`. Computes in O(1).
pub fn is_word_byte(b: u8) -> bool
    ensures { result ≡ is_name_byte b }
{
    b.is_ascii_alphabetic() || b == b'_' || b.is_ascii_digit()
}

fn is_machine_byte(b: u8) -> bool
    ensures { result ≡ is_machine_byte b }
{
    is_word_byte(b) || b == b'-' || b == b'.'
}
