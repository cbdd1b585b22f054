use ad_value::Memory;
use std::alloc::{AllocError, AllocFailed};
use std::fmt;
use thiserror::Error;

/// Why a transaction can't be done. Places of operations count from 0. The queue is then as it was.
#[derive(Clone, Copy, Error)]
pub enum ApplyError {
    /// An ad is to be destroyed or changed that isn't there.
    #[error("operation {op}: the key is not there")]
    NoKey { op: u64 },
    /// A new ad is to come under a key that is there.
    #[error("operation {op}: the key is there already")]
    KeyThere { op: u64 },
    /// An ad would get more attributes than it may have.
    #[error("operation {op}: the ad has no room for the attribute")]
    Full { op: u64 },
    #[error("out of memory")]
    Memory,
}

impl fmt::Debug for ApplyError {
    fn fmt<W: fmt::Write>(&self, f: &mut fmt::Formatter<W>) -> fmt::Result {
        fmt::Display::fmt(self, f)
    }
}

impl From<Memory> for ApplyError {
    ghost use Rattle.std.specs.Prelude.{◌≡◌};
    ghost use Rattle.queue_tx.specs.declared.error.ApplyError.TheVariants as error;

    ghost from_gives = { λ _ e. e ≡ error.Memory };

    fn from(_: Memory) -> ApplyError {
        ApplyError::Memory
    }
}

impl From<AllocError> for ApplyError {
    ghost use Rattle.std.specs.Prelude.{◌≡◌};
    ghost use Rattle.queue_tx.specs.declared.error.ApplyError.TheVariants as error;

    ghost from_gives = { λ _ e. e ≡ error.Memory };

    fn from(_: AllocError) -> ApplyError {
        ApplyError::Memory
    }
}

impl<T: Drop> From<AllocFailed<T>> for ApplyError {
    ghost use Rattle.std.specs.Prelude.{◌≡◌};
    ghost use Rattle.queue_tx.specs.declared.error.ApplyError.TheVariants as error;

    ghost from_gives = { λ _ e. e ≡ error.Memory };

    fn from(_: AllocFailed<T>) -> ApplyError {
        ApplyError::Memory
    }
}
