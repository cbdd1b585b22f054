use crate::lines::write_text;
use ad_parse::parse_expr;
use ad_tree::Expr;
use ad_value::{Text, Value};
use cases::{Case, CaseError};
use claim_id::JobId;
use queue_record::{PrintError, print_tx};
use queue_tx::{Key, Op, Tx};
use std::alloc::{AllocError, Global};
use std::fmt::Write;

/// The text of a transaction: `print OP ..`.
pub(crate) fn answer_print(
    alloc: Global,
    case: Case<'_>,
    out: &mut String,
) -> Result<(), CaseError> {
    let fields = case.all_fields(alloc)?;
    let tx = tx_of(alloc, case, &fields)?;
    match print_tx(alloc, &tx) {
        Ok(text) => {
            out.push_str("ok")?;
            write_text(&text, out)?;
        }
        Err(PrintError::TooLong { op }) => write!(out, "TooLong\t{op}")?,
        Err(PrintError::Memory) => return Err(CaseError::Memory),
    }
    Ok(())
}

/// The transaction of these fields, each an operation.
pub(crate) fn tx_of(alloc: Global, case: Case<'_>, fields: &[&str]) -> Result<Tx, CaseError> {
    let mut ops = Vec::new(alloc);
    for field in fields {
        ops.push(op_of(alloc, case, field)?)?;
    }
    Ok(Tx::from_vec(ops))
}

// `new KEY KIND OTHER`, `destroy KEY`, `set KEY NAME EXPR`, `delete KEY NAME`, `string KEY NAME N`.
fn op_of(alloc: Global, case: Case<'_>, field: &str) -> Result<Op, CaseError> {
    let text = case.text(alloc, field)?;
    let (verb, rest) = cut(text.as_str());
    let (key, rest) = cut(rest);
    let key = key_of(case, key)?;
    match verb {
        "new" => new_op(alloc, key, rest),
        "destroy" => Ok(Op::DestroyAd { key }),
        "set" => set_op(alloc, case, key, rest),
        "string" => string_op(alloc, case, key, rest),
        "delete" => Ok(Op::DeleteAttr {
            key,
            name: text_of(alloc, rest)?,
        }),
        _ => Err(CaseError::Form { line: case.line }),
    }
}

fn new_op(alloc: Global, key: Key, rest: &str) -> Result<Op, CaseError> {
    let (kind, other) = cut(rest);
    Ok(Op::NewAd {
        key,
        kind: text_of(alloc, kind)?,
        other: text_of(alloc, other)?,
    })
}

fn set_op(alloc: Global, case: Case<'_>, key: Key, rest: &str) -> Result<Op, CaseError> {
    let (name, text) = cut(rest);
    let Ok(expr) = parse_expr(alloc, text) else {
        return Err(CaseError::Form { line: case.line });
    };
    Ok(Op::SetAttr {
        key,
        name: text_of(alloc, name)?,
        expr,
    })
}

fn string_op(alloc: Global, case: Case<'_>, key: Key, rest: &str) -> Result<Op, CaseError> {
    let (name, count) = cut(rest);
    let mut letters = String::new(alloc);
    for _ in 0..case.natural(count)? {
        letters.push('x')?;
    }
    Ok(Op::SetAttr {
        key,
        name: text_of(alloc, name)?,
        expr: Expr::Lit(Value::Str(Text::from(letters))),
    })
}

/// The key of a text.
pub(crate) fn key_of(case: Case<'_>, text: &str) -> Result<Key, CaseError> {
    if text == "0.0" {
        return Ok(Key::Header);
    }
    match JobId::read(text) {
        Ok(job) => Ok(Key::Proc(job)),
        Err(_) => Err(CaseError::Form { line: case.line }),
    }
}

fn text_of(alloc: Global, text: &str) -> Result<Text, AllocError> {
    Ok(Text::from(String::from_str(alloc, text)?))
}

// The text before the first blank, and the text after it.
fn cut(text: &str) -> (&str, &str) {
    text.split_once(' ').unwrap_or((text, ""))
}
