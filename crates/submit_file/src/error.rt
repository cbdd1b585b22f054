use ad_value::Memory;
use line_text::MacroError;
use std::alloc::{AllocError, AllocFailed};
use std::fmt;
use thiserror::Error;

/// How many jobs one file may ask for.
pub const MAX_JOBS: usize = 10_000;

/// Why a submit file is refused, at which line, from 1.
#[derive(Drop, Error)]
pub enum SubmitError {
    /// A malformed line, or arguments whose quotes are not closed.
    #[error("line {line}: not a line of a submit file")]
    BadLine { line: u32 },
    /// A command that this pool has no use for.
    #[error("line {line}: an unsupported command")]
    Unsupported { line: u32 },
    /// A universe other than vanilla.
    #[error("line {line}: not the vanilla universe")]
    Universe { line: u32 },
    /// A queue statement without an executable.
    #[error("line {line}: no executable")]
    NoExecutable { line: u32 },
    /// A value that is no expression, or whose attribute would be too long or nested too deep.
    #[error("line {line}: not an expression")]
    BadExpr { line: u32 },
    /// A queue statement with which the file asks for more than 10,000 jobs.
    #[error("line {line}: more than {max} jobs", max = crate::error::MAX_JOBS)]
    Count { line: u32 },
    /// A queue statement one of whose jobs has too many attributes.
    #[error("line {line}: a job has too many attributes")]
    Full { line: u32 },
    /// A value or a statement whose macros cannot be replaced.
    #[error("line {line}: {error}")]
    Macro { line: u32, error: MacroError },
    /// There is no queue statement.
    #[error("no queue statement")]
    NoQueue,
    #[error("out of memory")]
    Memory,
}

impl fmt::Debug for SubmitError {
    fn fmt<W: fmt::Write>(&self, f: &mut fmt::Formatter<W>) -> fmt::Result {
        fmt::Display::fmt(self, f)
    }
}

impl From<Memory> for SubmitError {
    ghost use Rattle.std.specs.Prelude.{◌≡◌};
    ghost use Rattle.submit_file.specs.declared.error.SubmitError.TheVariants as error;

    ghost from_gives = { λ _ e. e ≡ error.Memory };

    fn from(_: Memory) -> SubmitError {
        SubmitError::Memory
    }
}

impl From<AllocError> for SubmitError {
    ghost use Rattle.std.specs.Prelude.{◌≡◌};
    ghost use Rattle.submit_file.specs.declared.error.SubmitError.TheVariants as error;

    ghost from_gives = { λ _ e. e ≡ error.Memory };

    fn from(_: AllocError) -> SubmitError {
        SubmitError::Memory
    }
}

impl<T: Drop> From<AllocFailed<T>> for SubmitError {
    ghost use Rattle.std.specs.Prelude.{◌≡◌};
    ghost use Rattle.submit_file.specs.declared.error.SubmitError.TheVariants as error;

    ghost from_gives = { λ _ e. e ≡ error.Memory };

    fn from(_: AllocFailed<T>) -> SubmitError {
        SubmitError::Memory
    }
}
