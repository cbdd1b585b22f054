use std::alloc::{AllocError, AllocFailed};
use std::fmt;
use thiserror::Error;

/// What is wrong with a case. Lines count from 1.
#[derive(Clone, Copy, Error)]
pub enum CaseError {
    /// The first field names no kind of case.
    #[error("line {line}: no such kind of case")]
    Kind { line: u64 },
    /// A field is missing, or there is one too many.
    #[error("line {line}: a field is missing, or there is one too many")]
    Fields { line: u64 },
    /// A backslash in a field that begins no escape.
    #[error("line {line}: a broken escape")]
    Escape { line: u64 },
    /// A field that stands for bytes that are no text.
    #[error("line {line}: a field is not UTF-8")]
    Text { line: u64 },
    /// A field that is not the number that it should be.
    #[error("line {line}: a field is not a number, or is out of its range")]
    Number { line: u64 },
    /// A field that is not of the form that its kind of case asks.
    #[error("line {line}: a field is not of its form")]
    Form { line: u64 },
    #[error("out of memory")]
    Memory,
}

impl fmt::Debug for CaseError {
    fn fmt<W: fmt::Write>(&self, f: &mut fmt::Formatter<W>) -> fmt::Result {
        fmt::Display::fmt(self, f)
    }
}

impl From<AllocError> for CaseError {
    ghost use Rattle.std.specs.Prelude.{◌≡◌};
    ghost use Rattle.cases.specs.declared.error.CaseError.TheVariants as error;

    ghost from_gives = { λ _ e. e ≡ error.Memory };

    fn from(_: AllocError) -> CaseError {
        CaseError::Memory
    }
}

impl<T: Drop> From<AllocFailed<T>> for CaseError {
    ghost use Rattle.std.specs.Prelude.{◌≡◌};
    ghost use Rattle.cases.specs.declared.error.CaseError.TheVariants as error;

    ghost from_gives = { λ _ e. e ≡ error.Memory };

    fn from(_: AllocFailed<T>) -> CaseError {
        CaseError::Memory
    }
}
