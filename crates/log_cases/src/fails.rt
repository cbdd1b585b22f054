use crate::logs::{appended, bytes_of, found_as, found_in, queues_of, transactions_of};
use crate::mending::{LAST_CALL, Way, append_each, failing_store};
use cases::{Case, CaseError};
use pool_store::MemStore;
use queue_log::Log;
use queue_tx::Tx;
use std::alloc::{AllocError, Global};
use std::fmt::Write;

/// What became of a log.
#[derive(Drop, PartialEq)]
struct Outcome {
    /// What was refused, and what came of it.
    words: String,
    /// How many transactions are found in the file in the end; none where the log has others, or
    /// where they haven't their queue.
    found: Option<u64>,
}

/// What becomes of a new log, and of the transactions of this one that are appended to it, where
/// each call of the store fails in turn, and with it the one so many calls later, 0 for none:
/// `fails GAP BYTES`.
pub(crate) fn answer_fails(
    alloc: Global,
    case: Case<'_>,
    out: &mut String,
) -> Result<(), CaseError> {
    let (gap, bytes) = case.two_fields()?;
    let gap = case.natural(gap)?;
    let bytes = case.bytes(alloc, bytes)?;
    let txs = transactions_of(alloc, case, &bytes)?;
    let queues = queues_of(alloc, case, txs.as_slice())?;
    out.push_str("ok")?;
    let txs = appended(txs.as_slice());
    write_calls(alloc, case, gap, txs, queues.as_slice(), out)
}

fn write_calls(
    alloc: Global,
    case: Case<'_>,
    gap: u64,
    txs: &[Tx],
    queues: &[String],
    out: &mut String,
) -> Result<(), CaseError> {
    for call in 0..LAST_CALL {
        write!(out, "\t{call}")?;
        let store = failing_store(alloc, &[], call, gap)?;
        let recovered = outcome_of(alloc, case, Way::Recovery, store, txs, queues)?;
        let store = failing_store(alloc, &[], call, gap)?;
        let reattached = outcome_of(alloc, case, Way::Reattaching, store, txs, queues)?;
        write_outcomes(&recovered, &reattached, out)?;
        if recovered.words.is_empty() {
            break;
        }
    }
    Ok(())
}

fn outcome_of(
    alloc: Global,
    case: Case<'_>,
    way: Way,
    store: MemStore,
    txs: &[Tx],
    queues: &[String],
) -> Result<Outcome, CaseError> {
    let mut words = String::new(alloc);
    let log = append_each(alloc, case, way, store, txs, &mut words)?;
    let found = found_at_last(alloc, log, queues)?;
    Ok(Outcome { words, found })
}

/// How many transactions recovery finds in the file of a log, where the log has as many, and both
/// have their queue.
pub(crate) fn found_at_last(
    alloc: Global,
    log: Log<MemStore>,
    queues: &[String],
) -> Result<Option<u64>, CaseError> {
    let had = found_as(alloc, &log, queues);
    let store = log.into_store();
    let found = found_in(alloc, bytes_of(&store), queues)?;
    Ok(if had? == found { found } else { None })
}

fn write_outcomes(
    recovered: &Outcome,
    reattached: &Outcome,
    out: &mut String,
) -> Result<(), AllocError> {
    if *recovered != *reattached {
        return out.push_str(" differs");
    }
    out.push_str(recovered.words.as_str())?;
    write_found(recovered.found, out)
}

/// Appends how many transactions were found.
pub(crate) fn write_found(found: Option<u64>, out: &mut String) -> Result<(), AllocError> {
    match found {
        Some(found) => write!(out, " {found}"),
        None => out.push_str(" lost"),
    }
}
