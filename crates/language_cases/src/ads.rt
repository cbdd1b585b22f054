ghost use Rattle.std.specs.Prelude.{◌≡◌, ◌<◌};

use ad_eval::{Steps, eval, holds, judge, rank};
use ad_parse::{AdError, parse_ad};
use ad_tree::Ad;
use ad_value::{Memory, Value};
use cases::{Case, CaseError, escape};
use std::alloc::{AllocError, Global};
use std::fmt::Write;
use std::marker::Brand;
use std::sync::ledger::{Blank, Ledger};

/// What is asked of two ads.
#[derive(Clone, Copy)]
pub(crate) enum Question {
    /// The value of an attribute.
    Value,
    /// Whether an attribute holds.
    Truth,
    /// The rank of the other ad.
    Rank,
    /// Whether a job and a slot match.
    Match,
}

// A question with all but the first ad. The name is empty where no attribute is asked for.
#[derive(Clone, Copy)]
struct Asked<'a> {
    case: Case<'a>,
    question: Question,
    target: &'a str,
    name: &'a str,
    now: u64,
}

/// Answers a question about an attribute: `MY TARGET NAME NOW`.
pub(crate) fn answer_attribute(
    alloc: Global,
    case: Case<'_>,
    question: Question,
    out: &mut String,
) -> Result<(), CaseError> {
    let (my, target, name, now) = case.four_fields()?;
    let name = case.text(alloc, name)?;
    let asked = Asked {
        case,
        question,
        target,
        name: name.as_str(),
        now: case.natural(now)?,
    };
    ask(alloc, asked, my, out)
}

/// Answers a question about two ads: `MY TARGET NOW`.
pub(crate) fn answer_pair(
    alloc: Global,
    case: Case<'_>,
    question: Question,
    out: &mut String,
) -> Result<(), CaseError> {
    let (my, target, now) = case.three_fields()?;
    let asked = Asked {
        case,
        question,
        target,
        name: "",
        now: case.natural(now)?,
    };
    ask(alloc, asked, my, out)
}

fn ask(alloc: Global, asked: Asked<'_>, my: &str, out: &mut String) -> Result<(), CaseError> {
    let text = asked.case.text(alloc, my)?;
    match parse_ad(alloc, text.as_str()) {
        Ok(my) => ask_of(alloc, asked, &my, out),
        Err(error) => Err(bad_ad(asked.case, error)),
    }
}

fn ask_of(alloc: Global, asked: Asked<'_>, my: &Ad, out: &mut String) -> Result<(), CaseError> {
    if asked.target == "-" {
        return ask_both(alloc, asked, my, None, out);
    }
    let text = asked.case.text(alloc, asked.target)?;
    match parse_ad(alloc, text.as_str()) {
        Ok(target) => ask_both(alloc, asked, my, Some(&target), out),
        Err(error) => Err(bad_ad(asked.case, error)),
    }
}

/// What is wrong with a case whose ad is refused.
pub(crate) fn bad_ad(case: Case<'_>, error: AdError) -> CaseError {
    match error {
        AdError::Memory => CaseError::Memory,
        _ => CaseError::Form { line: case.line },
    }
}

fn ask_both(
    alloc: Global,
    asked: Asked<'_>,
    my: &Ad,
    target: Option<&Ad>,
    out: &mut String,
) -> Result<(), CaseError> {
    let (name, now) = (asked.name, asked.now);
    match (asked.question, target) {
        (Question::Value, target) => {
            write_value(alloc, eval(alloc, my, target, name, now), out)?;
        }
        (Question::Truth, target) => write_truth(holds(alloc, my, target, name, now), out)?,
        (Question::Rank, Some(target)) => write_number(rank(alloc, my, target, now), out)?,
        (Question::Match, Some(target)) => write_truth(is_match(alloc, my, target, now), out)?,
        (Question::Rank | Question::Match, None) => {
            return Err(CaseError::Form {
                line: asked.case.line,
            });
        }
    }
    Ok(())
}

fn write_value(
    alloc: Global,
    value: Result<Value, Memory>,
    out: &mut String,
) -> Result<(), AllocError> {
    match value {
        Ok(value) => write_literal(alloc, &value, out),
        Err(Memory) => Err(AllocError),
    }
}

fn write_literal(alloc: Global, value: &Value, out: &mut String) -> Result<(), AllocError> {
    match value.text(alloc) {
        Ok(text) => {
            out.push_str("ok\t")?;
            escape(text.as_str(), out)
        }
        Err(Memory) => Err(AllocError),
    }
}

fn write_truth(truth: Result<bool, Memory>, out: &mut String) -> Result<(), AllocError> {
    match truth {
        Ok(true) => out.push_str("ok\tyes"),
        Ok(false) => out.push_str("ok\tno"),
        Err(Memory) => Err(AllocError),
    }
}

fn write_number(number: Result<i64, Memory>, out: &mut String) -> Result<(), AllocError> {
    match number {
        Ok(number) => write!(out, "ok\t{number}"),
        Err(Memory) => Err(AllocError),
    }
}

// Whether two ads match. Its one judgement is counted for itself.
fn is_match(alloc: Global, job: &Ad, slot: &Ad, now: u64) -> Result<bool, Memory> {
    is_match_counted::<Brand>(alloc, job, slot, now, Blank::new(1))
}

fn is_match_counted<L: Ledger>(
    alloc: Global,
    job: &Ad,
    slot: &Ad,
    now: u64,
    blank: Blank,
) -> Result<bool, Memory>
    requires name { blank.name ≡ L.name }
    requires parts { blank.parts ≡ L.parts }
    requires some { 0 < blank.parts }
{
    let mut steps = Steps::<L>::new(blank);
    match judge(alloc, job, slot, now, &mut steps) {
        Ok(judged) => Ok(judged.is_some()),
        Err(memory) => Err(memory),
    }
}
