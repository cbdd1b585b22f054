use crate::logs::{
    NAME, READING, append, appended, bytes_of, found_in, least_image, queues_of, store_of,
    transactions_of,
};
use cases::{Case, CaseError};
use pool_store::MemStore;
use queue_log::{Log, LogError};
use queue_tx::Tx;
use std::alloc::{AllocError, Global};
use std::fmt::Write;

/// A stop after so many bytes is the last.
const LAST_STOP: u64 = 65_536;

/// What a stop left: how many transactions were acknowledged, and how many are found in the file;
/// none where it, or the least that the stop may leave of it, has not these, or these and the next,
/// with their queue.
#[derive(Clone, Copy, PartialEq, Eq)]
struct Stopped {
    acknowledged: u64,
    found: Option<u64>,
}

/// What is found of a new log, and of the transactions of this one that are appended to it, where
/// the store stops at each of the bytes that are written: `stops BYTES`.
pub(crate) fn answer_stops(
    alloc: Global,
    case: Case<'_>,
    out: &mut String,
) -> Result<(), CaseError> {
    let bytes = case.bytes(alloc, case.one_field()?)?;
    let txs = transactions_of(alloc, case, &bytes)?;
    let queues = queues_of(alloc, case, txs.as_slice())?;
    out.push_str("ok")?;
    write_stops(
        alloc,
        case,
        appended(txs.as_slice()),
        queues.as_slice(),
        out,
    )
}

fn write_stops(
    alloc: Global,
    case: Case<'_>,
    txs: &[Tx],
    queues: &[String],
    out: &mut String,
) -> Result<(), CaseError> {
    let mut last = None;
    for stop in 0..LAST_STOP {
        let now = stopped_at(alloc, case, txs, queues, stop)?;
        if last != Some(now) {
            write_stopped(stop, now, out)?;
        }
        if now.acknowledged > txs.len() as u64 {
            break;
        }
        last = Some(now);
    }
    Ok(())
}

fn write_stopped(stop: u64, stopped: Stopped, out: &mut String) -> Result<(), AllocError> {
    let Stopped {
        acknowledged,
        found,
    } = stopped;
    write!(out, "\t{stop} {acknowledged} ")?;
    match found {
        Some(found) => write!(out, "{found}"),
        None => out.push_str("lost"),
    }
}

fn stopped_at(
    alloc: Global,
    case: Case<'_>,
    txs: &[Tx],
    queues: &[String],
    stop: u64,
) -> Result<Stopped, CaseError> {
    let mut store = store_of(alloc, &[], Vec::new(alloc))?;
    store.stop_after(stop);
    match Log::recover(alloc, store, NAME, READING) {
        Ok(log) => stopped_log(alloc, case, log, txs, queues),
        Err(refused) => {
            let (store, _error) = refused;
            stopped_with(alloc, &store, 0, queues)
        }
    }
}

fn stopped_log(
    alloc: Global,
    case: Case<'_>,
    mut log: Log<MemStore>,
    txs: &[Tx],
    queues: &[String],
) -> Result<Stopped, CaseError> {
    let acknowledged = append_each(alloc, case, &mut log, txs);
    let store = log.into_store();
    stopped_with(alloc, &store, acknowledged?, queues)
}

// How many transactions are acknowledged up to the stop.
fn append_each(
    alloc: Global,
    case: Case<'_>,
    log: &mut Log<MemStore>,
    txs: &[Tx],
) -> Result<u64, CaseError> {
    let mut acknowledged = log.roll().len();
    for tx in txs {
        match append(alloc, case, log, tx)? {
            Ok(number) => acknowledged = number.saturating_add(1),
            Err(LogError::Disk) => break,
            Err(_) => return Err(CaseError::Memory),
        }
    }
    Ok(acknowledged)
}

// What is found of the file, and of the least that the stop may leave of it.
fn stopped_with(
    alloc: Global,
    store: &MemStore,
    acknowledged: u64,
    queues: &[String],
) -> Result<Stopped, CaseError> {
    let least = found_in(alloc, least_image(store, NAME), queues)?;
    let most = found_in(alloc, bytes_of(store), queues)?;
    let found = if is_kept(acknowledged, least) && is_kept(acknowledged, most) {
        most
    } else {
        None
    };
    Ok(Stopped {
        acknowledged,
        found,
    })
}

// Whether all that were acknowledged are found, and at most one more.
fn is_kept(acknowledged: u64, found: Option<u64>) -> bool {
    match found {
        Some(found) => found == acknowledged || found == acknowledged.saturating_add(1),
        None => false,
    }
}
