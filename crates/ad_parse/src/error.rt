use ad_value::Memory;
use std::alloc::{AllocError, AllocFailed};
use std::fmt;
use thiserror::Error;

/// Why a text is no expression. Offsets and lengths count bytes, offsets from 0.
#[derive(Clone, Copy, Error)]
pub enum ParseError {
    /// The text, or its canonical text, is longer than 8,192 bytes.
    #[error("the expression has {length} bytes")]
    TooLong { length: u64 },
    /// A number with a fraction or an exponent that is not zero.
    #[error("a real number at {at}")]
    Real { at: u64 },
    /// An integer above 9223372036854775807.
    #[error("an integer out of range at {at}")]
    Range { at: u64 },
    /// A token that stands more than 64 deep in brackets and after operators.
    #[error("nested too deep at {at}")]
    TooDeep { at: u64 },
    /// The first token, or the end, after which no expression can go on.
    #[error("syntax error at {at}")]
    Syntax { at: u64 },
    #[error("out of memory")]
    Memory,
}

impl fmt::Debug for ParseError {
    fn fmt<W: fmt::Write>(&self, f: &mut fmt::Formatter<W>) -> fmt::Result {
        fmt::Display::fmt(self, f)
    }
}

impl From<Memory> for ParseError {
    ghost use Rattle.std.specs.Prelude.{◌≡◌};
    ghost use Rattle.ad_parse.specs.declared.error.ParseError.TheVariants as error;

    ghost from_gives = { λ _ e. e ≡ error.Memory };

    fn from(_: Memory) -> ParseError {
        ParseError::Memory
    }
}

impl From<AllocError> for ParseError {
    ghost use Rattle.std.specs.Prelude.{◌≡◌};
    ghost use Rattle.ad_parse.specs.declared.error.ParseError.TheVariants as error;

    ghost from_gives = { λ _ e. e ≡ error.Memory };

    fn from(_: AllocError) -> ParseError {
        ParseError::Memory
    }
}

impl<T: Drop> From<AllocFailed<T>> for ParseError {
    ghost use Rattle.std.specs.Prelude.{◌≡◌};
    ghost use Rattle.ad_parse.specs.declared.error.ParseError.TheVariants as error;

    ghost from_gives = { λ _ e. e ≡ error.Memory };

    fn from(_: AllocFailed<T>) -> ParseError {
        ParseError::Memory
    }
}

/// Why a text is no ad. Lines count from 1.
#[derive(Clone, Copy, Error)]
pub enum AdError {
    /// A line that is not skipped and is not `Name = expression`.
    #[error("line {line}: not an attribute")]
    BadLine { line: u32 },
    /// An expression that is refused. Its offsets count from its first byte that is no blank.
    #[error("line {line}: {error}")]
    Expr { line: u32, error: ParseError },
    /// A new name where the ad has 256 attributes.
    #[error("line {line}: the ad has 256 attributes")]
    Full { line: u32 },
    #[error("out of memory")]
    Memory,
}

impl fmt::Debug for AdError {
    fn fmt<W: fmt::Write>(&self, f: &mut fmt::Formatter<W>) -> fmt::Result {
        fmt::Display::fmt(self, f)
    }
}

impl From<Memory> for AdError {
    ghost use Rattle.std.specs.Prelude.{◌≡◌};
    ghost use Rattle.ad_parse.specs.declared.error.AdError.TheVariants as error;

    ghost from_gives = { λ _ e. e ≡ error.Memory };

    fn from(_: Memory) -> AdError {
        AdError::Memory
    }
}
