use std::alloc::{AllocError, AllocFailed};
use std::fmt;
use thiserror::Error;

/// Why an accountant did not do what was asked. It is then as it was before.
#[derive(Clone, Copy, Error)]
pub enum PriorityError {
    /// The accounts are at a later tick.
    #[error("tick {asked} is before tick {at}, at which the accounts are")]
    Backward { asked: u64, at: u64 },
    /// With this user there would be more than `MAX_USERS`.
    #[error("there are as many users as may be")]
    Users,
    #[error("out of memory")]
    Memory,
}

impl fmt::Debug for PriorityError {
    fn fmt<W: fmt::Write>(&self, f: &mut fmt::Formatter<W>) -> fmt::Result {
        fmt::Display::fmt(self, f)
    }
}

impl From<AllocError> for PriorityError {
    ghost use Rattle.std.specs.Prelude.{◌≡◌};
    ghost use Rattle.matchmaker.specs.declared.account_error.PriorityError.TheVariants as error;

    ghost from_gives = { λ _ e. e ≡ error.Memory };

    fn from(_: AllocError) -> PriorityError {
        PriorityError::Memory
    }
}

impl<T: Drop> From<AllocFailed<T>> for PriorityError {
    ghost use Rattle.std.specs.Prelude.{◌≡◌};
    ghost use Rattle.matchmaker.specs.declared.account_error.PriorityError.TheVariants as error;

    ghost from_gives = { λ _ e. e ≡ error.Memory };

    fn from(_: AllocFailed<T>) -> PriorityError {
        PriorityError::Memory
    }
}
