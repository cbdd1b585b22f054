use crate::roll::MAX_ITEMS;
use std::alloc::AllocError;
use std::fmt;
use thiserror::Error;

/// Why a roll took no item, or made no room. The roll is then as it was before.
#[derive(Clone, Copy, Error)]
pub enum RollError {
    /// With what was asked for the roll would have more than `MAX_ITEMS` items.
    #[error("a roll has at most {MAX_ITEMS} items")]
    Full,
    #[error("out of memory")]
    Memory,
}

impl fmt::Debug for RollError {
    fn fmt<W: fmt::Write>(&self, f: &mut fmt::Formatter<W>) -> fmt::Result {
        fmt::Display::fmt(self, f)
    }
}

impl From<AllocError> for RollError {
    ghost use Rattle.std.specs.Prelude.{◌≡◌};
    ghost use Rattle.receipt_roll.specs.declared.error.RollError.TheVariants as error;

    ghost from_gives = { λ _ e. e ≡ error.Memory };

    fn from(_: AllocError) -> RollError {
        RollError::Memory
    }
}
