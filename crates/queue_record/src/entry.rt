ghost use Rattle.std.specs.Prelude.{◌≡◌, Option, IfOk, IfErr};
ghost use Rattle.std.specs.Option.{option_map};
ghost use Rattle.queue_tx.specs.Operations.{Operation, operation};
ghost use Rattle.queue_record.specs.Entries.{begins, does, stamped, entry, entry_at, entry_by};
ghost use Rattle.queue_record.specs.Records.{IsShort, IsRefused, Record};
ghost use Rattle.queue_record.specs.Words.{at_end, first_word, past_word};

use crate::error::RecordError;
use crate::operations::{delete_attr, destroy_ad, new_ad, set_attr};
use crate::stamp::stamp;
use crate::words::{are_blanks, first_word};
use ad_value::Memory;
use queue_tx::Op;
use std::alloc::Global;

/// How many bytes the longest line of a log has, without its newline.
pub const MAX_LINE: usize = 16_384;

/// What a line of a log says.
#[derive(Drop)]
pub enum LogEntry {
    /// `105`: a transaction begins.
    Begin,
    /// `106`: a transaction ends.
    End,
    /// `101` to `104`: an operation, of the transaction that is open or alone.
    Operation(Op),
    /// `107`: when the log was begun, and its sequence among those that were rotated; 0 where that
    /// is above 4294967294.
    Stamp { sequence: u64 },
}

/// What a line says, without its newline, as the line of this number. Computes in O(bytes).
pub fn read_line(alloc: Global, line: &[u8], number: u64) -> Result<LogEntry, RecordError>
    ensures found { IfOk result (λ e. IsShort line.now × Record line.now (entry e)) }
    ensures refused { IfErr result (IsRefused line.now number) }
{
    if line.len() > MAX_LINE {
        return Err(RecordError::TooLong { line: number });
    }
    match entry_of(alloc, line) {
        Ok(Some(entry)) => Ok(entry),
        Ok(None) => Err(RecordError::BadRecord { line: number }),
        Err(Memory) => Err(RecordError::Memory),
    }
}

// What a line says that is not too long; none where it is no record.
#[tactic(auto, unfolding(crate::specs::Entries::entry_at))]
pub(crate) fn entry_of(alloc: Global, line: &[u8]) -> Result<Option<LogEntry>, Memory>
    ensures { IfOk result (λ e. option_map entry e ≡ entry_at line.now) }
{
    match str::from_utf8(line) {
        Ok(text) => entry_in(alloc, text),
        Err(_) => Ok(None),
    }
}

fn entry_in(alloc: Global, text: &str) -> Result<Option<LogEntry>, Memory>
    ensures { IfOk result (λ e. option_map entry e
        ≡ entry_by (first_word text.now) (past_word text.now)) }
{
    let (code, after) = first_word(text);
    entry_behind(alloc, code, after)
}

#[tactic(auto, unfolding(crate::specs::Entries::entry_by))]
fn entry_behind(alloc: Global, code: &str, after: &str) -> Result<Option<LogEntry>, Memory>
    ensures { IfOk result (λ e. option_map entry e ≡ entry_by code.now after.now) }
{
    match code {
        "101" => as_entry(new_ad(alloc, after)),
        "102" => as_entry(Ok(destroy_ad(after))),
        "103" => as_entry(set_attr(alloc, after)),
        "104" => as_entry(delete_attr(alloc, after)),
        "105" => Ok(begin(after)),
        "106" => Ok(Some(LogEntry::End)),
        "107" => Ok(as_stamp(stamp(after))),
        _ => Ok(None),
    }
}

// The entry of an operation that was read.
fn as_entry(read: Result<Option<Op>, Memory>) -> Result<Option<LogEntry>, Memory>
    ensures { (said : Option Operation) → IfOk read (λ op. option_map operation op ≡ said)
        → IfOk result (λ e. option_map entry e ≡ option_map does said) }
{
    match read {
        Ok(Some(op)) => Ok(Some(LogEntry::Operation(op))),
        Ok(None) => Ok(None),
        Err(Memory) => Err(Memory),
    }
}

fn as_stamp(sequence: Option<u64>) -> Option<LogEntry>
    ensures { option_map entry result ≡ option_map stamped sequence }
{
    match sequence {
        Some(sequence) => Some(LogEntry::Stamp { sequence }),
        None => None,
    }
}

fn begin(after: &str) -> Option<LogEntry>
    ensures { option_map entry result ≡ at_end after.now begins }
{
    if are_blanks(after) {
        Some(LogEntry::Begin)
    } else {
        None
    }
}
