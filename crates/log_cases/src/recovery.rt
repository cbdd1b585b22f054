// What recovery makes of the bytes of a log.

use crate::logs::{NAME, NEW_LOG, READING, bytes_of, store_of, write_log_error};
use crate::reading::{read_in_pieces, write_list, write_log};
use pool_store::MemStore;
use queue_log::{Log, LogError};
use std::alloc::{AllocError, Global};
use std::fmt::Write;

/// Whether recovery makes of the bytes of a log, or of none, what is read of them.
pub(crate) fn recovers_as_read(alloc: Global, bytes: &[u8]) -> Result<bool, AllocError> {
    let recovered = recovered_answer(alloc, bytes)?;
    let read = if bytes.is_empty() {
        read_answer(alloc, NEW_LOG.as_bytes())?
    } else {
        read_answer(alloc, bytes)?
    };
    Ok(recovered == read)
}

// What is read of these bytes, as recovery says it.
fn read_answer(alloc: Global, bytes: &[u8]) -> Result<String, AllocError> {
    let mut answer = String::new(alloc);
    match read_in_pieces(alloc, bytes, bytes.len().max(1)) {
        Ok(log) => write_log(alloc, &log, &mut answer)?,
        Err(error) => write_log_error(LogError::from(error), &mut answer)?,
    }
    Ok(answer)
}

fn recovered_answer(alloc: Global, bytes: &[u8]) -> Result<String, AllocError> {
    let mut answer = String::new(alloc);
    let store = store_of(alloc, bytes, Vec::new(alloc))?;
    match Log::recover(alloc, store, NAME, READING) {
        Ok(log) => write_recovered(alloc, log, bytes, &mut answer)?,
        Err(refused) => write_refused(refused, bytes, &mut answer)?,
    }
    Ok(answer)
}

// The file that is left has what counts of these bytes, or is that of a new log.
fn write_recovered(
    alloc: Global,
    log: Log<MemStore>,
    bytes: &[u8],
    out: &mut String,
) -> Result<(), AllocError> {
    let mut state = String::new(alloc);
    let written = write_list(alloc, log.roll().items(), log.queue(), &mut state);
    let store = log.into_store();
    written?;
    let left = bytes_of(&store);
    let size = left.len();
    if bytes.starts_with(left) || (bytes.is_empty() && left == NEW_LOG.as_bytes()) {
        write!(out, "ok\t{size}\t{state}")
    } else {
        out.push_str("another file")
    }
}

// A file that is refused stays as it was.
fn write_refused(
    refused: (MemStore, LogError),
    bytes: &[u8],
    out: &mut String,
) -> Result<(), AllocError> {
    let (store, error) = refused;
    if bytes_of(&store) == bytes {
        write_log_error(error, out)
    } else {
        out.push_str("another file")
    }
}
