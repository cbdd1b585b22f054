use pool_outer::StoreError;
use std::fmt;
use thiserror::Error;

/// Why bytes are no file of boots.
#[derive(Clone, Copy, Error)]
pub enum BootError {
    /// The first whole line that is no number of a boot. Lines count from 1.
    #[error("line {line} is no number of a boot")]
    BadNumber { line: u64 },
}

impl fmt::Debug for BootError {
    fn fmt<W: fmt::Write>(&self, f: &mut fmt::Formatter<W>) -> fmt::Result {
        fmt::Display::fmt(self, f)
    }
}

/// Why a file of boots was not opened.
#[derive(Clone, Copy, Error)]
pub enum OpenBootsError {
    /// The first whole line that is no number of a boot. Lines count from 1.
    #[error("line {line} is no number of a boot")]
    BadNumber { line: u64 },
    #[error("the disk failed")]
    Failed,
    #[error("out of memory")]
    Memory,
}

impl fmt::Debug for OpenBootsError {
    fn fmt<W: fmt::Write>(&self, f: &mut fmt::Formatter<W>) -> fmt::Result {
        fmt::Display::fmt(self, f)
    }
}

impl From<BootError> for OpenBootsError {
    ghost use Rattle.std.specs.Prelude.{◌≡◌};
    ghost use Rattle.pool_store.specs.OpenErrors.{of_bytes};

    ghost from_gives = { λ error e. e ≡ of_bytes error };

    fn from(error: BootError) -> OpenBootsError {
        match error {
            BootError::BadNumber { line } => OpenBootsError::BadNumber { line },
        }
    }
}

impl From<StoreError> for OpenBootsError {
    ghost use Rattle.std.specs.Prelude.{◌≡◌};
    ghost use Rattle.pool_store.specs.OpenErrors.{of_store};

    ghost from_gives = { λ error e. e ≡ of_store error };

    fn from(error: StoreError) -> OpenBootsError {
        match error {
            StoreError::Missing => OpenBootsError::Failed,
            StoreError::Failed => OpenBootsError::Failed,
            StoreError::Memory => OpenBootsError::Memory,
        }
    }
}
