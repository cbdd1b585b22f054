use crate::fails::write_found;
use crate::logs::{appended, bytes_of, found_in, least_image, queues_of, transactions_of};
use crate::mending::{LAST_CALL, TRIES, Way, append_each, failing_store};
use cases::{Case, CaseError};
use pool_store::MemStore;
use queue_log::{Log, LogError};
use queue_tx::Tx;
use std::alloc::{AllocError, Global};
use std::fmt::Write;

/// The file beside a log.
const NUMBERS: &str = "job_queue.numbers";

/// The same as `fails`, where the number of each transaction is written to a file beside the log
/// once its append was answered, also by an error: `beside GAP BYTES`.
pub(crate) fn answer_beside(
    alloc: Global,
    case: Case<'_>,
    out: &mut String,
) -> Result<(), CaseError> {
    let (gap, bytes) = case.two_fields()?;
    let gap = case.natural(gap)?;
    let bytes = case.bytes(alloc, bytes)?;
    let txs = transactions_of(alloc, case, &bytes)?;
    let queues = queues_of(alloc, case, txs.as_slice())?;
    out.push_str("ok")?;
    let txs = appended(txs.as_slice());
    write_calls(alloc, case, gap, txs, queues.as_slice(), out)
}

fn write_calls(
    alloc: Global,
    case: Case<'_>,
    gap: u64,
    txs: &[Tx],
    queues: &[String],
    out: &mut String,
) -> Result<(), CaseError> {
    for call in 0..LAST_CALL {
        write!(out, "\t{call}")?;
        let begun = out.len();
        let store = failing_store(alloc, &[], call, gap)?;
        let log = append_each(alloc, case, Way::Beside, store, txs, out)?;
        let ended = out.len();
        write_left(alloc, log, queues, out)?;
        if begun == ended {
            break;
        }
    }
    Ok(())
}

// What is found in the log's file, and what stands in the file beside it.
fn write_left(
    alloc: Global,
    log: Log<MemStore>,
    queues: &[String],
    out: &mut String,
) -> Result<(), CaseError> {
    let had = log.roll().len();
    let store = log.into_store();
    let found = found_in(alloc, bytes_of(&store), queues)?;
    write_found(if found == Some(had) { found } else { None }, out)?;
    write_numbers(&store, out)?;
    Ok(())
}

// What stands in the file beside the log, the least that a stop may leave of it.
fn write_numbers(store: &MemStore, out: &mut String) -> Result<(), AllocError> {
    out.push_str(" beside")?;
    for byte in least_image(store, NUMBERS) {
        out.push(char::from(*byte))?;
    }
    Ok(())
}

/// Writes a number to the file beside a log, until that is answered by `Ok`.
pub(crate) fn write_beside(
    alloc: Global,
    case: Case<'_>,
    log: &mut Log<MemStore>,
    number: u64,
    out: &mut String,
) -> Result<(), CaseError> {
    let text = format!(in alloc; " {number}")?;
    for _ in 0..TRIES {
        match write_once(alloc, case, log, text.as_str())? {
            Ok(()) => return Ok(()),
            Err(LogError::Disk) => out.push_str(" number")?,
            Err(_) => return Err(CaseError::Memory),
        }
    }
    Err(CaseError::Form { line: case.line })
}

// The file is one beside that of the log.
fn write_once(
    alloc: Global,
    case: Case<'_>,
    log: &mut Log<MemStore>,
    text: &str,
) -> Result<Result<(), LogError>, CaseError> {
    if !log.is_beside(NUMBERS) {
        return Err(CaseError::Form { line: case.line });
    }
    Ok(log.append_beside(alloc, NUMBERS, text.as_bytes()))
}
