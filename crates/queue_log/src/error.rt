use ad_value::Memory;
use pool_outer::{StoreError, Which};
use queue_record::{PrintError, RecordError};
use receipt_roll::RollError;
use std::alloc::AllocError;
use std::fmt;
use thiserror::Error;

/// Why a log did not do what it was asked for.
#[derive(Clone, Copy, PartialEq, Eq, Error)]
pub enum LogError {
    /// The first line of the file, from 1, that is no record, is too long or can't be applied; line
    /// 0 where the file differs from what the log wrote.
    #[error("line {line} of the log is bad")]
    BadRecord { line: u64 },
    /// A line would be too long (`LogLine`), or there are too many transactions (`Roll`).
    #[error("limit {which:?} is reached")]
    Limit { which: Which },
    #[error("the disk failed")]
    Disk,
    #[error("out of memory")]
    Memory,
}

impl fmt::Debug for LogError {
    fn fmt<W: fmt::Write>(&self, f: &mut fmt::Formatter<W>) -> fmt::Result {
        fmt::Display::fmt(self, f)
    }
}

impl From<Memory> for LogError {
    ghost use Rattle.std.specs.Prelude.{◌≡◌};
    ghost use Rattle.queue_log.specs.declared.error.LogError.TheVariants as error;

    ghost from_gives = { λ _ e. e ≡ error.Memory };

    fn from(_: Memory) -> LogError {
        LogError::Memory
    }
}

impl From<AllocError> for LogError {
    ghost use Rattle.std.specs.Prelude.{◌≡◌};
    ghost use Rattle.queue_log.specs.declared.error.LogError.TheVariants as error;

    ghost from_gives = { λ _ e. e ≡ error.Memory };

    fn from(_: AllocError) -> LogError {
        LogError::Memory
    }
}

impl From<RecordError> for LogError {
    ghost use Rattle.std.specs.Prelude.{◌≡◌};
    ghost use Rattle.queue_log.specs.Errors.{of_record};

    ghost from_gives = { λ error e. e ≡ of_record error };

    fn from(error: RecordError) -> LogError {
        match error {
            RecordError::BadRecord { line } => LogError::BadRecord { line },
            RecordError::TooLong { line } => LogError::BadRecord { line },
            RecordError::Memory => LogError::Memory,
        }
    }
}

impl From<PrintError> for LogError {
    ghost use Rattle.std.specs.Prelude.{◌≡◌};
    ghost use Rattle.queue_log.specs.Errors.{of_print};

    ghost from_gives = { λ error e. e ≡ of_print error };

    fn from(error: PrintError) -> LogError {
        match error {
            PrintError::TooLong { .. } => LogError::Limit {
                which: Which::LogLine,
            },
            PrintError::Memory => LogError::Memory,
        }
    }
}

impl From<RollError> for LogError {
    ghost use Rattle.std.specs.Prelude.{◌≡◌};
    ghost use Rattle.queue_log.specs.Errors.{of_roll};

    ghost from_gives = { λ error e. e ≡ of_roll error };

    fn from(error: RollError) -> LogError {
        match error {
            RollError::Full => LogError::Limit { which: Which::Roll },
            RollError::Memory => LogError::Memory,
        }
    }
}

impl From<StoreError> for LogError {
    ghost use Rattle.std.specs.Prelude.{◌≡◌};
    ghost use Rattle.queue_log.specs.Errors.{of_store};

    ghost from_gives = { λ error e. e ≡ of_store error };

    fn from(error: StoreError) -> LogError {
        match error {
            StoreError::Missing => LogError::Disk,
            StoreError::Failed => LogError::Disk,
            StoreError::Memory => LogError::Memory,
        }
    }
}
