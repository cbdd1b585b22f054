use crate::lines::{write_op, write_refusal};
use crate::queues::write_queue;
use crate::recovery::recovers_as_read;
use cases::{Case, CaseError};
use queue_record::{ReadLog, Reader, RecordError};
use queue_tx::{Queue, Tx};
use std::alloc::{AllocError, Global};
use std::fmt::Write;

/// What the bytes of a log stand for, however they are fed, and when the log is recovered:
/// `read BYTES`.
pub(crate) fn answer_read(
    alloc: Global,
    case: Case<'_>,
    out: &mut String,
) -> Result<(), CaseError> {
    let bytes = case.bytes(alloc, case.one_field()?)?;
    let whole = answer_in_pieces(alloc, &bytes, bytes.len().max(1))?;
    let by_seven = answer_in_pieces(alloc, &bytes, 7)?;
    let by_one = answer_in_pieces(alloc, &bytes, 1)?;
    if by_seven != whole || by_one != whole {
        out.push_str("the pieces matter")?;
    } else if recovers_as_read(alloc, &bytes)? {
        out.push_str(whole.as_str())?;
    } else {
        out.push_str("differs")?;
    }
    Ok(())
}

fn answer_in_pieces(alloc: Global, bytes: &[u8], size: usize) -> Result<String, AllocError> {
    let mut answer = String::new(alloc);
    match read_in_pieces(alloc, bytes, size) {
        Ok(log) => write_log(alloc, &log, &mut answer)?,
        Err(error) => write_refusal(error, &mut answer)?,
    }
    Ok(answer)
}

/// What is read of bytes that are fed in pieces of this size.
pub(crate) fn read_in_pieces(
    alloc: Global,
    bytes: &[u8],
    size: usize,
) -> Result<ReadLog, RecordError> {
    let mut reader = Reader::new(alloc);
    for piece in bytes.chunks(size.max(1)) {
        reader.feed(piece)?;
    }
    Ok(reader.end())
}

/// Appends what was read.
pub(crate) fn write_log(alloc: Global, log: &ReadLog, out: &mut String) -> Result<(), AllocError> {
    let whole = log.whole;
    write!(out, "ok\t{whole}\t")?;
    write_list(alloc, log.list.as_slice(), &log.queue, out)
}

/// Appends how many transactions there are, these, and the queue.
pub(crate) fn write_list(
    alloc: Global,
    list: &[Tx],
    queue: &Queue,
    out: &mut String,
) -> Result<(), AllocError> {
    let count = list.len();
    write!(out, "{count}")?;
    for tx in list {
        write_tx(alloc, tx, out)?;
    }
    write_queue(alloc, queue, out)
}

fn write_tx(alloc: Global, tx: &Tx, out: &mut String) -> Result<(), AllocError> {
    out.push_str("\t105\\n")?;
    for op in tx.ops() {
        write_op(alloc, op, out)?;
        out.push_str("\\n")?;
    }
    out.push_str("106\\n")
}

/// What each beginning of a log stands for: `cuts BYTES`.
pub(crate) fn answer_cuts(
    alloc: Global,
    case: Case<'_>,
    out: &mut String,
) -> Result<(), CaseError> {
    let bytes = case.bytes(alloc, case.one_field()?)?;
    out.push_str("ok")?;
    let mut last = None;
    for length in 0..=bytes.len() {
        match read_in_pieces(alloc, &bytes[..length], length.max(1)) {
            Ok(log) => {
                let now = (log.list.len(), log.whole);
                if last != Some(now) {
                    let (count, whole) = now;
                    write!(out, "\t{length} {count} {whole}")?;
                }
                last = Some(now);
            }
            Err(RecordError::BadRecord { line }) => {
                write!(out, "\t{length} BadRecord {line}")?;
                return Ok(());
            }
            Err(RecordError::TooLong { line }) => {
                write!(out, "\t{length} TooLong {line}")?;
                return Ok(());
            }
            Err(RecordError::Memory) => return Err(CaseError::Memory),
        }
    }
    Ok(())
}
