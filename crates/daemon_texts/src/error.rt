ghost use Rattle.std.specs.Prelude.{◌≡◌};
ghost use Rattle.daemon_texts.specs.Faults.{fault_at};

use ad_value::Memory;
use cases::CaseError;
use std::alloc::{AllocError, AllocFailed};

/// Why a text is not read.
#[derive(Clone, Copy)]
pub enum TextError {
    /// It is not of its form.
    Form,
    Memory,
}

impl TextError {
    /// The fault of the case whose field it is. Computes in O(1).
    pub fn at_line(self, line: u64) -> CaseError
        ensures { result ≡ fault_at line self }
    {
        match self {
            TextError::Form => CaseError::Form { line },
            TextError::Memory => CaseError::Memory,
        }
    }
}

impl From<Memory> for TextError {
    ghost use Rattle.std.specs.Prelude.{◌≡◌};
    ghost use Rattle.daemon_texts.specs.declared.error.TextError.TheVariants as error;

    ghost from_gives = { λ _ e. e ≡ error.Memory };

    fn from(_: Memory) -> TextError {
        TextError::Memory
    }
}

impl From<AllocError> for TextError {
    ghost use Rattle.std.specs.Prelude.{◌≡◌};
    ghost use Rattle.daemon_texts.specs.declared.error.TextError.TheVariants as error;

    ghost from_gives = { λ _ e. e ≡ error.Memory };

    fn from(_: AllocError) -> TextError {
        TextError::Memory
    }
}

impl<T: Drop> From<AllocFailed<T>> for TextError {
    ghost use Rattle.std.specs.Prelude.{◌≡◌};
    ghost use Rattle.daemon_texts.specs.declared.error.TextError.TheVariants as error;

    ghost from_gives = { λ _ e. e ≡ error.Memory };

    fn from(_: AllocFailed<T>) -> TextError {
        TextError::Memory
    }
}
