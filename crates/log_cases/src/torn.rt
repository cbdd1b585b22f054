use crate::logs::{NAME, READING, bytes_of, least_image};
use crate::mending::{LAST_CALL, TRIES, failing_store, write_refused};
use cases::{Case, CaseError};
use pool_store::MemStore;
use queue_log::Log;
use std::alloc::{AllocError, Global};
use std::fmt::Write;

/// What becomes of the bytes of a log when it is recovered, where each call of the store fails in
/// turn, and with it the one so many calls later, 0 for none: `torn GAP BYTES`.
pub(crate) fn answer_torn(
    alloc: Global,
    case: Case<'_>,
    out: &mut String,
) -> Result<(), CaseError> {
    let (gap, bytes) = case.two_fields()?;
    let gap = case.natural(gap)?;
    let bytes = case.bytes(alloc, bytes)?;
    out.push_str("ok")?;
    for call in 0..LAST_CALL {
        write!(out, "\t{call}")?;
        let begun = out.len();
        let store = failing_store(alloc, &bytes, call, gap)?;
        let log = recover_whole(alloc, case, store, &bytes, out)?;
        let ended = out.len();
        write_recovered(log, out)?;
        if begun == ended {
            break;
        }
    }
    Ok(())
}

// The log, once it can be recovered.
fn recover_whole(
    alloc: Global,
    case: Case<'_>,
    store: MemStore,
    bytes: &[u8],
    out: &mut String,
) -> Result<Log<MemStore>, CaseError> {
    let mut store = store;
    for _ in 0..TRIES {
        match Log::recover(alloc, store, NAME, READING) {
            Ok(log) => return Ok(log),
            Err(refused) => {
                let (again, error) = refused;
                store = again;
                write_refused(error, out)?;
                write_kept(&store, bytes, out)?;
            }
        }
    }
    Err(CaseError::Form { line: case.line })
}

// A stop leaves all these bytes.
fn write_kept(store: &MemStore, bytes: &[u8], out: &mut String) -> Result<(), AllocError> {
    if least_image(store, NAME) == bytes {
        return Ok(());
    }
    out.push_str(" lost")
}

// How many transactions a log has, and how many bytes a stop leaves of its file.
fn write_recovered(log: Log<MemStore>, out: &mut String) -> Result<(), AllocError> {
    let count = log.roll().len();
    let store = log.into_store();
    let left = bytes_of(&store);
    let size = left.len();
    write!(out, " {count} {size}")?;
    write_kept(&store, left, out)
}
