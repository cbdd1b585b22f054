use ad_value::Memory;
use line_text::MacroError;
use std::alloc::{AllocError, AllocFailed};
use std::fmt;
use thiserror::Error;

/// Why a text is no configuration: of its first line that is refused, the first cause that holds,
/// in the order in which they stand here but for `Macro`, which comes before `BadValue`. Lines
/// count from 1.
#[derive(Drop, Error)]
pub enum ConfigError {
    /// The line is not of the form `NAME = value`, or it sets what a machine has before any
    /// machine.
    #[error("line {line} sets nothing")]
    BadLine { line: u32 },
    /// The line sets a name that a configuration does not have.
    #[error("line {line} sets an unknown name")]
    Unknown { line: u32 },
    /// The line's value is not one of its name.
    #[error("line {line} has no such value")]
    BadValue { line: u32 },
    /// A macro of the line's value can't be replaced.
    #[error("line {line}: {error}")]
    Macro { line: u32, error: MacroError },
    /// The line's machine is one too many.
    #[error("line {line} is above {max} machines", max = crate::config::MAX_MACHINES)]
    Machines { line: u32 },
    /// With the line there are too many slots.
    #[error("line {line} is above {max} slots", max = crate::config::MAX_SLOTS)]
    Slots { line: u32 },
    /// The line's attribute is one too many for its machine.
    #[error("line {line} is above {max} attributes", max = crate::config::MAX_MACHINE_ATTRIBUTES)]
    Full { line: u32 },
    /// There is no machine.
    #[error("no machine")]
    NoMachine,
    #[error("out of memory")]
    Memory,
}

impl fmt::Debug for ConfigError {
    fn fmt<W: fmt::Write>(&self, f: &mut fmt::Formatter<W>) -> fmt::Result {
        fmt::Display::fmt(self, f)
    }
}

impl From<Memory> for ConfigError {
    ghost use Rattle.std.specs.Prelude.{◌≡◌};
    ghost use Rattle.pool_config.specs.declared.error.ConfigError.TheVariants as error;

    ghost from_gives = { λ _ e. e ≡ error.Memory };

    fn from(_: Memory) -> ConfigError {
        ConfigError::Memory
    }
}

impl From<AllocError> for ConfigError {
    ghost use Rattle.std.specs.Prelude.{◌≡◌};
    ghost use Rattle.pool_config.specs.declared.error.ConfigError.TheVariants as error;

    ghost from_gives = { λ _ e. e ≡ error.Memory };

    fn from(_: AllocError) -> ConfigError {
        ConfigError::Memory
    }
}

impl<T: Drop> From<AllocFailed<T>> for ConfigError {
    ghost use Rattle.std.specs.Prelude.{◌≡◌};
    ghost use Rattle.pool_config.specs.declared.error.ConfigError.TheVariants as error;

    ghost from_gives = { λ _ e. e ≡ error.Memory };

    fn from(_: AllocFailed<T>) -> ConfigError {
        ConfigError::Memory
    }
}
