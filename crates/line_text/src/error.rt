use ad_value::{Memory, Text};
use std::alloc::{AllocError, AllocFailed};
use std::fmt;
use thiserror::Error;

/// Why a text has no expansion.
#[derive(Drop, Error)]
pub enum MacroError {
    /// At this place of a text, in bytes from 0, a `$` begins a reference that is none. The text is
    /// the given one, or one that was put in.
    #[error("no reference at byte {at}")]
    Bad { at: u64 },
    /// A name, as it is spelled where it is met, stands within its own expansion.
    #[error("{name} stands within its own expansion")]
    Circular { name: Text },
    /// So many bytes would be written, with the piece that brings them above the limit.
    #[error("{length} bytes, above {max}", max = crate::expansion::MAX_EXPANSION)]
    TooLong { length: u64 },
    #[error("out of memory")]
    Memory,
}

impl fmt::Debug for MacroError {
    fn fmt<W: fmt::Write>(&self, f: &mut fmt::Formatter<W>) -> fmt::Result {
        fmt::Display::fmt(self, f)
    }
}

impl From<Memory> for MacroError {
    ghost use Rattle.std.specs.Prelude.{◌≡◌};
    ghost use Rattle.line_text.specs.declared.error.MacroError.TheVariants as error;

    ghost from_gives = { λ _ e. e ≡ error.Memory };

    fn from(_: Memory) -> MacroError {
        MacroError::Memory
    }
}

impl From<AllocError> for MacroError {
    ghost use Rattle.std.specs.Prelude.{◌≡◌};
    ghost use Rattle.line_text.specs.declared.error.MacroError.TheVariants as error;

    ghost from_gives = { λ _ e. e ≡ error.Memory };

    fn from(_: AllocError) -> MacroError {
        MacroError::Memory
    }
}

impl<T: Drop> From<AllocFailed<T>> for MacroError {
    ghost use Rattle.std.specs.Prelude.{◌≡◌};
    ghost use Rattle.line_text.specs.declared.error.MacroError.TheVariants as error;

    ghost from_gives = { λ _ e. e ≡ error.Memory };

    fn from(_: AllocFailed<T>) -> MacroError {
        MacroError::Memory
    }
}
