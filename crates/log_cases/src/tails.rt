use crate::logs::{NAME, READING, append, bytes_of, count_in, store_of};
use cases::{Case, CaseError};
use pool_store::MemStore;
use queue_log::{Log, LogError};
use queue_tx::Tx;
use std::alloc::{AllocError, Global};
use std::fmt::Write;

/// What is written of the transaction without operations.
const NOTHING: &str = "105\n106\n";

/// What recovery makes of the bytes of a log.
#[derive(Clone, Copy, PartialEq, Eq)]
enum Tail {
    /// How many transactions it has, and how many bytes it leaves.
    Cut { count: u64, left: u64 },
    Bad { line: u64 },
    /// A transaction that is appended behind them isn't found again.
    Lost,
}

/// What recovery makes of each beginning of a log, behind which a transaction without operations is
/// then appended and found: `tails BYTES`.
pub(crate) fn answer_tails(
    alloc: Global,
    case: Case<'_>,
    out: &mut String,
) -> Result<(), CaseError> {
    let bytes = case.bytes(alloc, case.one_field()?)?;
    out.push_str("ok")?;
    let mut last = None;
    for length in 0..=bytes.len() {
        let now = tail_of(alloc, case, &bytes[..length])?;
        if last != Some(now) {
            write_tail(length, now, out)?;
        }
        last = Some(now);
    }
    Ok(())
}

fn write_tail(length: usize, tail: Tail, out: &mut String) -> Result<(), AllocError> {
    match tail {
        Tail::Cut { count, left } => write!(out, "\t{length} {count} {left}"),
        Tail::Bad { line } => write!(out, "\t{length} BadRecord {line}"),
        Tail::Lost => write!(out, "\t{length} lost"),
    }
}

fn tail_of(alloc: Global, case: Case<'_>, bytes: &[u8]) -> Result<Tail, CaseError> {
    let store = store_of(alloc, bytes, Vec::new(alloc))?;
    match Log::recover(alloc, store, NAME, READING) {
        Ok(log) => tail_in(alloc, case, log),
        Err(refused) => refused_tail(refused),
    }
}

fn refused_tail(refused: (MemStore, LogError)) -> Result<Tail, CaseError> {
    let (_store, error) = refused;
    match error {
        LogError::BadRecord { line } => Ok(Tail::Bad { line }),
        _ => Err(CaseError::Memory),
    }
}

fn tail_in(alloc: Global, case: Case<'_>, mut log: Log<MemStore>) -> Result<Tail, CaseError> {
    let count = log.roll().len();
    let number = append(alloc, case, &mut log, &Tx::new(alloc));
    let store = log.into_store();
    tail_before(alloc, bytes_of(&store), count, number?)
}

// What stood in a log before the last of its transactions was appended.
fn tail_before(
    alloc: Global,
    bytes: &[u8],
    count: u64,
    number: Result<u64, LogError>,
) -> Result<Tail, CaseError> {
    if number != Ok(count) || !bytes.ends_with(NOTHING.as_bytes()) {
        return Ok(Tail::Lost);
    }
    if count_in(alloc, bytes)? != Some(count.saturating_add(1)) {
        return Ok(Tail::Lost);
    }
    let left = bytes.len().saturating_sub(NOTHING.len()) as u64;
    Ok(Tail::Cut { count, left })
}
