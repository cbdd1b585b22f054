use std::alloc::{AllocError, AllocFailed};
use std::fmt;
use thiserror::Error;

/// Why a collector did not take an ad. It is then as it was before.
#[derive(Clone, Copy, Error)]
pub enum CollectorError {
    /// With this name there would be more than `MAX_NAMES`.
    #[error("there are ads of as many slots as may be")]
    Full,
    #[error("out of memory")]
    Memory,
}

impl fmt::Debug for CollectorError {
    fn fmt<W: fmt::Write>(&self, f: &mut fmt::Formatter<W>) -> fmt::Result {
        fmt::Display::fmt(self, f)
    }
}

impl From<AllocError> for CollectorError {
    ghost use Rattle.std.specs.Prelude.{◌≡◌};
    ghost use Rattle.matchmaker.specs.declared.error.CollectorError.TheVariants as error;

    ghost from_gives = { λ _ e. e ≡ error.Memory };

    fn from(_: AllocError) -> CollectorError {
        CollectorError::Memory
    }
}

impl<T: Drop> From<AllocFailed<T>> for CollectorError {
    ghost use Rattle.std.specs.Prelude.{◌≡◌};
    ghost use Rattle.matchmaker.specs.declared.error.CollectorError.TheVariants as error;

    ghost from_gives = { λ _ e. e ≡ error.Memory };

    fn from(_: AllocFailed<T>) -> CollectorError {
        CollectorError::Memory
    }
}
