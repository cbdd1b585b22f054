// Logs in a store in memory.

ghost use Rattle.std.specs.Prelude.{◌≡◌};

use crate::printable::is_printable;
use crate::queues::write_queue;
use ad_value::{Copied, Text};
use cases::{Case, CaseError};
use pool_store::{MemFile, MemStore};
use queue_log::{Log, LogError};
use queue_record::{Reader, RecordError, print_tx};
use queue_tx::{Queue, Tx, TxList};
use receipt_roll::Receipt;
use std::alloc::{AllocError, Global};
use std::fmt::Write;

/// The file of a log.
pub(crate) const NAME: &str = "job_queue.log";

/// The number of a transaction that isn't where it was acknowledged.
pub(crate) const NOWHERE: u64 = u64::MAX;

/// When new logs are begun.
pub(crate) const READING: u64 = 5;

/// The log that is begun then.
pub(crate) const NEW_LOG: &str = "\
107 1 CreationTimestamp 5
105
101 0.0 Job Machine
103 0.0 NextClusterNum 1
103 0.0 NextRunNum 1
106
";

/// A store of which the file of the log has these bytes, and isn't there where they are none; the
/// calls of these numbers fail.
pub(crate) fn store_of(
    alloc: Global,
    bytes: &[u8],
    fails: Vec<u64>,
) -> Result<MemStore, AllocError> {
    let mut files = Vec::new(alloc);
    if !bytes.is_empty() {
        files.push(file_of(alloc, bytes)?)?;
    }
    Ok(MemStore::new(files, fails))
}

fn file_of(alloc: Global, bytes: &[u8]) -> Result<MemFile, AllocError> {
    let mut copy = Vec::new(alloc);
    copy.extend_from_slice(bytes)?;
    let name = String::from_str(alloc, NAME)?;
    Ok(MemFile::new(Text::from(name), copy))
}

/// What the file of the log has; nothing where it isn't there.
pub(crate) fn bytes_of(store: &MemStore) -> &[u8] {
    store.files().bytes(NAME).unwrap_or(&[])
}

/// The least that a stop may leave of a file.
pub(crate) fn least_image<'a>(store: &'a MemStore, name: &str) -> &'a [u8] {
    let bytes = store.files().bytes(name).unwrap_or(&[]);
    for length in 0..bytes.len() {
        if store.files().is_image(name, &bytes[..length]) {
            return &bytes[..length];
        }
    }
    bytes
}

/// The transaction of a new log, and those of a text behind it.
pub(crate) fn transactions_of(
    alloc: Global,
    case: Case<'_>,
    bytes: &[u8],
) -> Result<TxList, CaseError> {
    let mut reader = Reader::new(alloc);
    let read = match reader.feed(NEW_LOG.as_bytes()) {
        Ok(()) => reader.feed(bytes),
        Err(error) => Err(error),
    };
    match read {
        Ok(()) => Ok(reader.end().list),
        Err(RecordError::Memory) => Err(CaseError::Memory),
        Err(_) => Err(CaseError::Form { line: case.line }),
    }
}

/// Those that follow that of a new log.
pub(crate) fn appended(txs: &[Tx]) -> &[Tx] {
    match txs {
        [_, rest @ ..] => rest,
        [] => &[],
    }
}

/// Appends an equal transaction to a log, and gives its number; `NOWHERE` where the roll hasn't the
/// transaction at its receipt's number. It has to be one that the log can take.
pub(crate) fn append(
    alloc: Global,
    case: Case<'_>,
    log: &mut Log<MemStore>,
    tx: &Tx,
) -> Result<Result<u64, LogError>, CaseError> {
    if log.queue().prepare(alloc, tx).is_err() || !is_printable(alloc, tx) {
        return Err(CaseError::Form { line: case.line });
    }
    let Ok(copy) = tx.copy(alloc) else {
        return Err(CaseError::Memory);
    };
    match log.append(alloc, copy) {
        Ok(receipt) => Ok(Ok(confirmed_number(alloc, log, &receipt, tx))),
        Err(error) => Ok(Err(error)),
    }
}

/// The number of a receipt, once it is confirmed, where the roll has an equal transaction there.
pub(crate) fn confirmed_number(
    alloc: Global,
    log: &mut Log<MemStore>,
    receipt: &Receipt<Tx>,
    tx: &Tx,
) -> u64
    requires { receipt.now.mark ≡ log.old.mark }
{
    log.confirm(receipt);
    match log.roll().get(receipt.number()) {
        Some(item) if is_same(alloc, item, tx) => receipt.number(),
        _ => NOWHERE,
    }
}

fn is_same(alloc: Global, a: &Tx, b: &Tx) -> bool {
    match (print_tx(alloc, a), print_tx(alloc, b)) {
        (Ok(a), Ok(b)) => a.as_str() == b.as_str(),
        _ => false,
    }
}

/// The ads of the queues before transactions, and after each of them.
pub(crate) fn queues_of(
    alloc: Global,
    case: Case<'_>,
    txs: &[Tx],
) -> Result<Vec<String>, CaseError> {
    let mut queues = Vec::new(alloc);
    let mut queue = Queue::new();
    queues.push(queue_text(alloc, &queue)?)?;
    for tx in txs {
        if queue.apply(alloc, tx).is_err() {
            return Err(CaseError::Form { line: case.line });
        }
        queues.push(queue_text(alloc, &queue)?)?;
    }
    Ok(queues)
}

/// How many transactions recovery finds in a file of these bytes.
pub(crate) fn count_in(alloc: Global, bytes: &[u8]) -> Result<Option<u64>, CaseError> {
    let store = store_of(alloc, bytes, Vec::new(alloc))?;
    match Log::recover(alloc, store, NAME, READING) {
        Ok(log) => Ok(Some(log.roll().len())),
        Err(_) => Ok(None),
    }
}

/// The same where they make the queue that is the one at their number.
pub(crate) fn found_in(
    alloc: Global,
    bytes: &[u8],
    queues: &[String],
) -> Result<Option<u64>, CaseError> {
    let store = store_of(alloc, bytes, Vec::new(alloc))?;
    match Log::recover(alloc, store, NAME, READING) {
        Ok(log) => found_as(alloc, &log, queues),
        Err(_) => Ok(None),
    }
}

/// The same of a log.
pub(crate) fn found_as(
    alloc: Global,
    log: &Log<MemStore>,
    queues: &[String],
) -> Result<Option<u64>, CaseError> {
    let count = log.roll().len();
    let text = queue_text(alloc, log.queue())?;
    match queues.get(count as usize) {
        Some(queue) if *queue == text => Ok(Some(count)),
        _ => Ok(None),
    }
}

/// The ads of a queue.
pub(crate) fn queue_text(alloc: Global, queue: &Queue) -> Result<String, AllocError> {
    let mut text = String::new(alloc);
    write_queue(alloc, queue, &mut text)?;
    Ok(text)
}

/// Appends why a log is refused.
pub(crate) fn write_log_error(error: LogError, out: &mut String) -> Result<(), AllocError> {
    match error {
        LogError::BadRecord { line } => write!(out, "BadRecord\t{line}"),
        LogError::Limit { which } => write!(out, "Limit\t{which:?}"),
        LogError::Disk => out.push_str("Disk"),
        LogError::Memory => Err(AllocError),
    }
}
