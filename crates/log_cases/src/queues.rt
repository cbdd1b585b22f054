use crate::lines::write_key;
use crate::operations::{key_of, tx_of};
use ad_parse::{AdError, parse_ad, print_expr};
use ad_tree::{Ad, Expr};
use ad_value::{Memory, Text};
use cases::{Case, CaseError, escape};
use queue_tx::{ApplyError, JobKind, Key, Op, Queue, Tx, kind_of};
use std::alloc::{AllocError, Global};
use std::fmt::Write;

/// What operations make of a queue: `apply COUNT KEYAD .. OP ..`.
pub(crate) fn answer_apply(
    alloc: Global,
    case: Case<'_>,
    out: &mut String,
) -> Result<(), CaseError> {
    let fields = case.all_fields(alloc)?;
    match changed_queue(alloc, case, &fields)? {
        Ok(queue) => {
            out.push_str("ok")?;
            write_queue(alloc, &queue, out)?;
        }
        Err(error) => write_cause(error, out)?,
    }
    Ok(())
}

/// The queue that operations make, or why they can't be done: `COUNT KEYAD .. OP ..`.
pub(crate) fn changed_queue(
    alloc: Global,
    case: Case<'_>,
    fields: &[&str],
) -> Result<Result<Queue, ApplyError>, CaseError> {
    let Some((count, rest)) = fields.split_first() else {
        return Err(CaseError::Fields { line: case.line });
    };
    let count = case.natural(count)? as usize;
    if count > rest.len() {
        return Err(CaseError::Fields { line: case.line });
    }
    let (ads, ops) = rest.split_at(count);
    let mut queue = queue_of(alloc, case, ads)?;
    let tx = tx_of(alloc, case, ops)?;
    match queue.apply(alloc, &tx) {
        Ok(()) => Ok(Ok(queue)),
        Err(error) => Ok(Err(error)),
    }
}

/// Appends why operations can't be done.
pub(crate) fn write_cause(error: ApplyError, out: &mut String) -> Result<(), AllocError> {
    match error {
        ApplyError::NoKey { op } => write!(out, "NoKey\t{op}"),
        ApplyError::KeyThere { op } => write!(out, "KeyThere\t{op}"),
        ApplyError::Full { op } => write!(out, "Full\t{op}"),
        ApplyError::Memory => Err(AllocError),
    }
}

// The queue of these fields, each a key and its ad.
fn queue_of(alloc: Global, case: Case<'_>, fields: &[&str]) -> Result<Queue, CaseError> {
    let mut queue = Queue::new();
    for field in fields {
        let text = case.text(alloc, field)?;
        let Some((key, text)) = text.as_str().split_once('\n') else {
            return Err(CaseError::Form { line: case.line });
        };
        let key = key_of(case, key)?;
        let ad = ad_of(alloc, case, text)?;
        let tx = Tx::from_vec(ops_of(alloc, key, &ad)?);
        match queue.apply(alloc, &tx) {
            Ok(()) => {}
            Err(ApplyError::Memory) => return Err(CaseError::Memory),
            Err(_) => return Err(CaseError::Form { line: case.line }),
        }
    }
    Ok(queue)
}

// The operations that make an ad.
fn ops_of(alloc: Global, key: Key, ad: &Ad) -> Result<Vec<Op>, CaseError> {
    let mut ops = Vec::new(alloc);
    ops.push(Op::NewAd {
        key,
        kind: Text::new(alloc),
        other: Text::new(alloc),
    })?;
    for place in 0..ad.len() {
        if let Some((name, expr)) = ad.attribute(place) {
            ops.push(set_op(alloc, key, name, expr)?)?;
        }
    }
    Ok(ops)
}

fn set_op(alloc: Global, key: Key, name: &str, expr: &Expr) -> Result<Op, CaseError> {
    match (Text::from_str(alloc, name), expr.copy(alloc)) {
        (Ok(name), Ok(expr)) => Ok(Op::SetAttr { key, name, expr }),
        _ => Err(CaseError::Memory),
    }
}

/// The ad of a text.
pub(crate) fn ad_of(alloc: Global, case: Case<'_>, text: &str) -> Result<Ad, CaseError> {
    match parse_ad(alloc, text) {
        Ok(ad) => Ok(ad),
        Err(AdError::Memory) => Err(CaseError::Memory),
        Err(_) => Err(CaseError::Form { line: case.line }),
    }
}

/// Appends the ads of a queue in order of key, a field each.
pub(crate) fn write_queue(
    alloc: Global,
    queue: &Queue,
    out: &mut String,
) -> Result<(), AllocError> {
    let mut bound = None;
    for _ in 0..u64::MAX {
        let Some(key) = queue.after(bound.as_ref()) else {
            break;
        };
        write_keyed_ad(alloc, *key, queue.get(key), out)?;
        bound = Some(*key);
    }
    Ok(())
}

fn write_keyed_ad(
    alloc: Global,
    key: Key,
    ad: Option<&Ad>,
    out: &mut String,
) -> Result<(), AllocError> {
    out.push('\t')?;
    write_key(key, out)?;
    out.push_str("\\n")?;
    match ad {
        Some(ad) => write_ad(alloc, ad, out),
        None => Ok(()),
    }
}

fn write_ad(alloc: Global, ad: &Ad, out: &mut String) -> Result<(), AllocError> {
    for place in 0..ad.len() {
        if let Some((name, expr)) = ad.attribute(place) {
            write_attribute(alloc, name, expr, out)?;
        }
    }
    Ok(())
}

fn write_attribute(
    alloc: Global,
    name: &str,
    expr: &Expr,
    out: &mut String,
) -> Result<(), AllocError> {
    escape(name, out)?;
    out.push_str(" = ")?;
    match print_expr(alloc, expr) {
        Ok(text) => escape(text.as_str(), out)?,
        Err(Memory) => return Err(AllocError),
    }
    out.push_str("\\n")
}

/// What a proc's ad makes of its job: `kind AD`.
pub(crate) fn answer_kind(
    alloc: Global,
    case: Case<'_>,
    out: &mut String,
) -> Result<(), CaseError> {
    let text = case.text(alloc, case.one_field()?)?;
    let ad = ad_of(alloc, case, text.as_str())?;
    out.push_str(match kind_of(&ad) {
        Some(JobKind::Idle) => "Idle",
        Some(JobKind::Held) => "Held",
        Some(JobKind::Under) => "Under",
        None => "none",
    })?;
    Ok(())
}
