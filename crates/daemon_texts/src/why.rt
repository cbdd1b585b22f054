ghost use Rattle.std.specs.Prelude.{◌≡◌, ◌++◌, ◌∷◌, codes, IfOk, OnOk, string_bytes};
ghost use Rattle.std.specs.Int.{w32};
ghost use Rattle.std.specs.Str.Parse.{ParsesSigned};
ghost use Rattle.daemon_texts.specs.EndTexts.{how_of, how_text, ranks_text, why_text, HowSays, IsHow, IsWhy, WhySays};

use crate::cut::cut;
use crate::error::TextError;
use crate::ids::{read_number, read_run, read_signed, write_run};
use pool_mail::{End, How, Why};
use std::alloc::{AllocError, Global};
use std::fmt::Write;

/// The end of a program: `Exited,N`, `Signalled,N` or `NotStarted`. Computes in O(bytes).
pub fn read_end(text: &str) -> Result<End, TextError>
    ensures { IfOk result (λ end. HowSays text.now (how_of end)) }
{
    match read_how(text)? {
        How::Exited(status) => Ok(End::Exited(status)),
        How::Signalled(number) => Ok(End::Signalled(number)),
        How::NotStarted => Ok(End::NotStarted),
        How::Evicted | How::Stopped => Err(TextError::Form),
    }
}

/// How a run ended: as an end, or `Evicted` or `Stopped`. Computes in O(bytes).
pub fn read_how(text: &str) -> Result<How, TextError>
    ensures { IfOk result (λ how. HowSays text.now how) }
{
    match cut(text, ',') {
        Some((kind, number)) => read_how_of(kind, number),
        None => read_plain_how(text),
    }
}

fn read_how_of(kind: &str, number: &str) -> Result<How, TextError>
    ensures { IfOk result (λ how. IsHow kind.now number.now how) }
{
    match kind {
        "Exited" => Ok(How::Exited(read_status(number)?)),
        "Signalled" => Ok(How::Signalled(read_status(number)?)),
        _ => Err(TextError::Form),
    }
}

#[tactic(auto, unfolding(crate::specs::EndTexts::how_text))]
fn read_plain_how(text: &str) -> Result<How, TextError>
    ensures { IfOk result (λ how. text.now ≡ how_text how) }
{
    match text {
        "NotStarted" => Ok(How::NotStarted),
        "Evicted" => Ok(How::Evicted),
        "Stopped" => Ok(How::Stopped),
        _ => Err(TextError::Form),
    }
}

fn read_status(text: &str) -> Result<i32, TextError>
    ensures { ParsesSigned w32 10 text.now result }
{
    match text.parse::<i32>() {
        Ok(status) => Ok(status),
        Err(_) => Err(TextError::Form),
    }
}

/// Appends how a run ended. Computes in O(1).
#[tactic(auto, unfolding(crate::specs::EndTexts::how_text))]
pub fn write_how(how: How, out: &mut String) -> Result<(), AllocError>
    ensures { OnOk result (string_bytes out.new ≡ string_bytes out.old ++ how_text how) }
{
    match how {
        How::Exited(status) => write!(out, "Exited,{status}"),
        How::Signalled(number) => write!(out, "Signalled,{number}"),
        How::NotStarted => out.push_str("NotStarted"),
        How::Evicted => out.push_str("Evicted"),
        How::Stopped => out.push_str("Stopped"),
    }
}

/// Why something is denied, as `Spent,NUMBER,LAST`. Computes in O(bytes).
pub fn read_why(alloc: Global, text: &str) -> Result<Why, TextError>
    ensures { IfOk result (λ why. WhySays text.now why) }
{
    match cut(text, ',') {
        Some((kind, fields)) => read_why_of(alloc, kind, fields),
        None => read_plain_why(text),
    }
}

#[tactic(auto, unfolding(crate::specs::EndTexts::why_text))]
fn read_plain_why(text: &str) -> Result<Why, TextError>
    ensures { IfOk result (λ why. text.now ≡ why_text why) }
{
    match text {
        "NoSuchClaim" => Ok(Why::NoSuchClaim),
        "NotMatched" => Ok(Why::NotMatched),
        _ => Err(TextError::Form),
    }
}

fn read_why_of(alloc: Global, kind: &str, fields: &str) -> Result<Why, TextError>
    ensures { IfOk result (λ why. IsWhy kind.now fields.now why) }
{
    match kind {
        "Occupied" => Ok(Why::Occupied {
            run: read_run(alloc, fields)?,
        }),
        "RankTooLow" => read_ranks(fields),
        "Spent" => read_spent(fields),
        "LeasePast" => read_past(fields),
        _ => Err(TextError::Form),
    }
}

fn two_numbers(fields: &str) -> Result<(&str, &str), TextError>
    ensures { IfOk result (λ p. fields.now ≡ p.0.now ++ 44 ∷ p.1.now) }
{
    match cut(fields, ',') {
        Some(numbers) => Ok(numbers),
        None => Err(TextError::Form),
    }
}

fn read_ranks(fields: &str) -> Result<Why, TextError>
    ensures { IfOk result (λ why. IsWhy (codes "RankTooLow") fields.now why) }
{
    let (old, new) = two_numbers(fields)?;
    Ok(Why::RankTooLow {
        old: read_signed(old)?,
        new: read_signed(new)?,
    })
}

fn read_spent(fields: &str) -> Result<Why, TextError>
    ensures { IfOk result (λ why. IsWhy (codes "Spent") fields.now why) }
{
    let (number, last) = two_numbers(fields)?;
    Ok(Why::Spent {
        number: read_number(number)?,
        last: read_number(last)?,
    })
}

fn read_past(fields: &str) -> Result<Why, TextError>
    ensures { IfOk result (λ why. IsWhy (codes "LeasePast") fields.now why) }
{
    let (until, reading) = two_numbers(fields)?;
    Ok(Why::LeasePast {
        until: read_number(until)?,
        reading: read_number(reading)?,
    })
}

/// Appends why something is denied. Computes in O(1).
#[tactic(auto, unfolding(crate::specs::EndTexts::why_text))]
pub fn write_why(why: Why, out: &mut String) -> Result<(), AllocError>
    ensures { OnOk result (string_bytes out.new ≡ string_bytes out.old ++ why_text why) }
{
    match why {
        Why::NoSuchClaim => out.push_str("NoSuchClaim"),
        Why::NotMatched => out.push_str("NotMatched"),
        Why::RankTooLow { old, new } => write_ranks(old, new, out),
        Why::Spent { number, last } => write!(out, "Spent,{number},{last}"),
        Why::Occupied { run } => {
            out.push_str("Occupied,")?;
            write_run(run, out)
        }
        Why::LeasePast { until, reading } => write!(out, "LeasePast,{until},{reading}"),
    }
}

fn write_ranks(old: i64, new: i64, out: &mut String) -> Result<(), AllocError>
    ensures { OnOk result (string_bytes out.new ≡ string_bytes out.old ++ ranks_text old new) }
{
    write!(out, "RankTooLow,{old},{new}")
}
