// Logs that fail and are made to go on.

ghost use Rattle.std.specs.Prelude.{◌≡◌};

use crate::beside::write_beside;
use crate::logs::{NAME, NOWHERE, READING, append, confirmed_number, store_of};
use cases::{Case, CaseError};
use pool_store::MemStore;
use queue_log::{Log, LogError};
use queue_tx::Tx;
use receipt_roll::Receipt;
use std::alloc::{AllocError, Global};

/// This many calls are tried in turn at most.
pub(crate) const LAST_CALL: u64 = 1_000;

/// This often what has failed is tried at most.
pub(crate) const TRIES: u64 = 8;

/// What is done with a log that is halted.
#[derive(Clone, Copy, PartialEq, Eq)]
pub(crate) enum Way {
    /// It is recovered anew.
    Recovery,
    Reattaching,
    /// It is reattached, and the number of each transaction is written beside it.
    Beside,
}

/// A store whose log has these bytes, of which this call fails, and the one so many calls later.
pub(crate) fn failing_store(
    alloc: Global,
    bytes: &[u8],
    call: u64,
    gap: u64,
) -> Result<MemStore, AllocError> {
    let mut fails = Vec::new(alloc);
    fails.push(call)?;
    fails.push(call.saturating_add(gap))?;
    store_of(alloc, bytes, fails)
}

/// Makes a log and appends to it, and says what failed and what came of it.
pub(crate) fn append_each(
    alloc: Global,
    case: Case<'_>,
    way: Way,
    store: MemStore,
    txs: &[Tx],
    out: &mut String,
) -> Result<Log<MemStore>, CaseError> {
    let mut log = recover(alloc, case, store, out)?;
    for tx in txs {
        log = append_one(alloc, case, way, log, tx, out)?;
    }
    Ok(log)
}

// The log, once it can be recovered.
fn recover(
    alloc: Global,
    case: Case<'_>,
    store: MemStore,
    out: &mut String,
) -> Result<Log<MemStore>, CaseError> {
    let mut store = store;
    for _ in 0..TRIES {
        match Log::recover(alloc, store, NAME, READING) {
            Ok(log) => return Ok(log),
            Err(refused) => {
                let (again, error) = refused;
                store = again;
                write_refused(error, out)?;
            }
        }
    }
    Err(CaseError::Form { line: case.line })
}

/// Says that recovery was refused.
pub(crate) fn write_refused(error: LogError, out: &mut String) -> Result<(), CaseError> {
    match error {
        LogError::Disk => Ok(out.push_str(" recover")?),
        _ => Err(CaseError::Memory),
    }
}

// Appends a transaction until the log has it.
fn append_one(
    alloc: Global,
    case: Case<'_>,
    way: Way,
    log: Log<MemStore>,
    tx: &Tx,
    out: &mut String,
) -> Result<Log<MemStore>, CaseError> {
    let mut log = log;
    for _ in 0..TRIES {
        let count = log.roll().len();
        if append_once(alloc, case, way, &mut log, tx, out)? {
            return Ok(log);
        }
        log = go_on(alloc, case, way, log, tx, out)?;
        if has_more(&log, count, out)? {
            return Ok(log);
        }
    }
    Err(CaseError::Form { line: case.line })
}

// Whether an append is acknowledged.
fn append_once(
    alloc: Global,
    case: Case<'_>,
    way: Way,
    log: &mut Log<MemStore>,
    tx: &Tx,
    out: &mut String,
) -> Result<bool, CaseError> {
    let number = log.roll().len();
    let appended = append(alloc, case, log, tx)?;
    if way == Way::Beside {
        write_beside(alloc, case, log, number, out)?;
    }
    if appended == Ok(NOWHERE) {
        out.push_str(" lost")?;
    }
    Ok(appended.is_ok())
}

// A log that is halted answers so again, and is made to go on.
fn go_on(
    alloc: Global,
    case: Case<'_>,
    way: Way,
    mut log: Log<MemStore>,
    tx: &Tx,
    out: &mut String,
) -> Result<Log<MemStore>, CaseError> {
    let again = append(alloc, case, &mut log, tx)?;
    write_again(again, out)?;
    match way {
        Way::Recovery => recover(alloc, case, log.into_store(), out),
        _ => reattach(alloc, case, log, tx, out),
    }
}

fn write_again(again: Result<u64, LogError>, out: &mut String) -> Result<(), AllocError> {
    out.push_str(match again {
        Err(LogError::Disk) => " append",
        _ => " goes on",
    })
}

// The log, once it can be reattached.
fn reattach(
    alloc: Global,
    case: Case<'_>,
    mut log: Log<MemStore>,
    tx: &Tx,
    out: &mut String,
) -> Result<Log<MemStore>, CaseError> {
    for _ in 0..TRIES {
        if reattach_once(alloc, &mut log, tx, out)? {
            return Ok(log);
        }
    }
    Err(CaseError::Form { line: case.line })
}

// Whether a log can be reattached. A receipt is that of the transaction whose append has failed.
fn reattach_once(
    alloc: Global,
    log: &mut Log<MemStore>,
    tx: &Tx,
    out: &mut String,
) -> Result<bool, CaseError> {
    let count = log.roll().len();
    match log.reattach(alloc) {
        Ok(Some(receipt)) => {
            write_receipt(alloc, log, &receipt, count, tx, out)?;
            Ok(true)
        }
        Ok(None) => Ok(true),
        Err(error) => {
            write_refused(error, out)?;
            Ok(false)
        }
    }
}

fn write_receipt(
    alloc: Global,
    log: &mut Log<MemStore>,
    receipt: &Receipt<Tx>,
    count: u64,
    tx: &Tx,
    out: &mut String,
) -> Result<(), AllocError>
    requires { receipt.now.mark ≡ log.old.mark }
{
    if confirmed_number(alloc, log, receipt, tx) == count {
        return Ok(());
    }
    out.push_str(" lost")
}

// Whether the transaction that has failed is in the file.
fn has_more(log: &Log<MemStore>, count: u64, out: &mut String) -> Result<bool, AllocError> {
    let kept = log.roll().len() > count;
    out.push_str(if kept { " kept" } else { " gone" })?;
    Ok(kept)
}
