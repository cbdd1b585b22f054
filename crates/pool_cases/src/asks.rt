// What a pool is asked.

use crate::outcome::written;
use ad_value::{Copied, Memory};
use cases::{Case, CaseError};
use daemon_texts::Fields;
use pool_answers::{write_look, write_requests, write_view};
use pool_core::Pool;
use pool_view::View;
use std::alloc::{AllocError, Global};
use std::fmt::Write;

/// Appends the answer of a pool to a case that asks it something.
pub(crate) fn answer_ask(
    alloc: Global,
    case: Case<'_>,
    pool: &Pool,
    out: &mut String,
) -> Result<(), CaseError> {
    let mut fields = Fields::of(alloc, case)?;
    answer_with(alloc, case, &mut fields, pool, out)?;
    fields.end()
}

fn answer_with(
    alloc: Global,
    case: Case<'_>,
    fields: &mut Fields<'_>,
    pool: &Pool,
    out: &mut String,
) -> Result<(), CaseError> {
    out.push_str("ok")?;
    match case.kind {
        "view" => answer_view(alloc, pool, out),
        "wants" => answer_wants(alloc, pool, out),
        "look" => answer_look(alloc, pool, out),
        "cluster" => written(write_number(Some(u64::from(pool.cluster())), out)),
        "due" => answer_due(alloc, fields, pool, out),
        "next" => answer_next(fields, pool, out),
        _ => Err(CaseError::Kind { line: case.line }),
    }
}

fn answer_view(alloc: Global, pool: &Pool, out: &mut String) -> Result<(), CaseError> {
    match copied_view(alloc, pool) {
        Ok(view) => written(write_view(alloc, &view, out)),
        Err(Memory) => Err(CaseError::Memory),
    }
}

// A copy of the view of a copy of the pool: so the cases show that copies are made.
fn copied_view(alloc: Global, pool: &Pool) -> Result<View, Memory> {
    let copied = pool.copy(alloc)?;
    let view = copied.view(alloc)?;
    view.copy(alloc)
}

fn answer_wants(alloc: Global, pool: &Pool, out: &mut String) -> Result<(), CaseError> {
    match pool.wants(alloc) {
        Ok(wants) => written(write_requests(wants.as_slice(), out)),
        Err(Memory) => Err(CaseError::Memory),
    }
}

fn answer_look(alloc: Global, pool: &Pool, out: &mut String) -> Result<(), CaseError> {
    match pool.look(alloc) {
        Ok(look) => written(write_look(&look, out)),
        Err(Memory) => Err(CaseError::Memory),
    }
}

// `due DAEMON READING`
fn answer_due(
    alloc: Global,
    fields: &mut Fields<'_>,
    pool: &Pool,
    out: &mut String,
) -> Result<(), CaseError> {
    let who = fields.daemon()?;
    let reading = fields.natural()?;
    written(write_truth(pool.due(alloc, who, reading), out))
}

// `next DAEMON FROM`
fn answer_next(fields: &mut Fields<'_>, pool: &Pool, out: &mut String) -> Result<(), CaseError> {
    let who = fields.daemon()?;
    let from = fields.natural()?;
    written(write_number(pool.next(who, from), out))
}

fn write_truth(truth: bool, out: &mut String) -> Result<(), AllocError> {
    out.push_str(if truth { "\ttrue" } else { "\tfalse" })
}

/// Appends a number, or `-` where there is none.
pub(crate) fn write_number(number: Option<u64>, out: &mut String) -> Result<(), AllocError> {
    match number {
        Some(number) => write!(out, "\t{number}"),
        None => out.push_str("\t-"),
    }
}
