use ad_value::Memory;
use std::alloc::{AllocError, AllocFailed};
use std::fmt;
use thiserror::Error;

/// Why a transaction has no text.
#[derive(Clone, Copy, Error)]
pub enum PrintError {
    /// The first operation whose line would be above 16,384 bytes, or whose expression prints above
    /// 8,192. Operations count from 0.
    #[error("the line of operation {op} is too long")]
    TooLong { op: u64 },
    #[error("out of memory")]
    Memory,
}

impl fmt::Debug for PrintError {
    fn fmt<W: fmt::Write>(&self, f: &mut fmt::Formatter<W>) -> fmt::Result {
        fmt::Display::fmt(self, f)
    }
}

impl From<Memory> for PrintError {
    ghost use Rattle.std.specs.Prelude.{◌≡◌};
    ghost use Rattle.queue_record.specs.declared.error.PrintError.TheVariants as error;

    ghost from_gives = { λ _ e. e ≡ error.Memory };

    fn from(_: Memory) -> PrintError {
        PrintError::Memory
    }
}

impl From<AllocError> for PrintError {
    ghost use Rattle.std.specs.Prelude.{◌≡◌};
    ghost use Rattle.queue_record.specs.declared.error.PrintError.TheVariants as error;

    ghost from_gives = { λ _ e. e ≡ error.Memory };

    fn from(_: AllocError) -> PrintError {
        PrintError::Memory
    }
}

/// Why a line is refused. Lines count from 1.
#[derive(Clone, Copy, Error)]
pub enum RecordError {
    /// A line that is no record, that is a record in a wrong place, or whose operation can't be
    /// done.
    #[error("line {line} is no record of a queue log, or cannot be applied")]
    BadRecord { line: u64 },
    /// A line above 16,384 bytes.
    #[error("line {line} is above 16384 bytes")]
    TooLong { line: u64 },
    #[error("out of memory")]
    Memory,
}

impl fmt::Debug for RecordError {
    fn fmt<W: fmt::Write>(&self, f: &mut fmt::Formatter<W>) -> fmt::Result {
        fmt::Display::fmt(self, f)
    }
}

impl From<Memory> for RecordError {
    ghost use Rattle.std.specs.Prelude.{◌≡◌};
    ghost use Rattle.queue_record.specs.declared.error.RecordError.TheVariants as error;

    ghost from_gives = { λ _ e. e ≡ error.Memory };

    fn from(_: Memory) -> RecordError {
        RecordError::Memory
    }
}

impl From<AllocError> for RecordError {
    ghost use Rattle.std.specs.Prelude.{◌≡◌};
    ghost use Rattle.queue_record.specs.declared.error.RecordError.TheVariants as error;

    ghost from_gives = { λ _ e. e ≡ error.Memory };

    fn from(_: AllocError) -> RecordError {
        RecordError::Memory
    }
}

impl<T: Drop> From<AllocFailed<T>> for RecordError {
    ghost use Rattle.std.specs.Prelude.{◌≡◌};
    ghost use Rattle.queue_record.specs.declared.error.RecordError.TheVariants as error;

    ghost from_gives = { λ _ e. e ≡ error.Memory };

    fn from(_: AllocFailed<T>) -> RecordError {
        RecordError::Memory
    }
}
