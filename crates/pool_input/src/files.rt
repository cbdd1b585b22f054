ghost use Rattle.std.specs.Prelude.{◌≡◌, ◌≤◌, ◌<◌, ℕ, true, false, Some, None, length, IfOk, IsErrOf};
ghost use Rattle.std.specs.Option.{option_map};
ghost use Rattle.pool_outer.specs.Cause.{HasCause};
ghost use Rattle.pool_outer.specs.Files.{SameFiles};
ghost use Rattle.pool_input.specs.declared.files.ReadError.TheVariants.{Failed};

use pool_outer::{Store, StoreError};
use std::alloc::{AllocError, Global};
use std::fmt;
use thiserror::Error;

/// The most bytes of a configuration or a submit file.
pub const MOST_BYTES: u64 = 1_048_576;

/// How many bytes are asked for at once.
const PIECE: usize = 4096;

#[derive(Clone, Copy, Error)]
pub enum ReadError {
    #[error("no such file")]
    Missing,
    #[error("more than {MOST_BYTES} bytes")]
    TooLong,
    #[error("the disk failed")]
    Failed,
    #[error("out of memory")]
    Memory,
}

impl fmt::Debug for ReadError {
    fn fmt<W: fmt::Write>(&self, f: &mut fmt::Formatter<W>) -> fmt::Result {
        fmt::Display::fmt(self, f)
    }
}

impl From<StoreError> for ReadError {
    ghost use Rattle.std.specs.Prelude.{◌≡◌};
    ghost use Rattle.pool_input.specs.ReadErrors.{read_error};

    ghost from_gives = { λ e r. r ≡ read_error e };

    fn from(error: StoreError) -> ReadError {
        match error {
            StoreError::Missing => ReadError::Missing,
            StoreError::Failed => ReadError::Failed,
            StoreError::Memory => ReadError::Memory,
        }
    }
}

impl From<AllocError> for ReadError {
    ghost use Rattle.std.specs.Prelude.{◌≡◌};
    ghost use Rattle.pool_input.specs.declared.files.ReadError.TheVariants.{Memory};

    ghost from_gives = { λ _ r. r ≡ Memory };

    fn from(_: AllocError) -> ReadError {
        ReadError::Memory
    }
}

/// All the bytes of a file, of at most 1,048,576 bytes. Computes in O(bytes).
pub fn read_file<D: Store>(alloc: Global, store: &mut D, name: &str) -> Result<Vec<u8>, ReadError>
    // What is answered of the file.
    ensures bytes { D.tells store.old ≡ true
        → IfOk result (λ bytes. D.file store.old name.now ≡ Some bytes.items) }
    ensures short { IfOk result (λ bytes. length bytes.items ≤ MOST_BYTES) }
    ensures missing { D.tells store.old ≡ true → IsErrOf result ReadError.Missing
        → D.file store.old name.now ≡ None }
    ensures too_long { D.tells store.old ≡ true → IsErrOf result ReadError.TooLong
        → (n : ℕ) × (option_map length (D.file store.old name.now) ≡ Some n) × (MOST_BYTES < n) }

    // The store.
    ensures same { D.tells store.old ≡ true
        → SameFiles (D.file store.old) (D.file store.new) (D.solid store.old) (D.solid store.new) }
    ensures told { D.tells store.new ≡ D.tells store.old }
    ensures cause { HasCause Failed (D.faults store.old) (D.faults store.new) result }
{
    let size = store.size(alloc, name)?;
    if is_too_long(size) {
        return Err(ReadError::TooLong);
    }
    let mut bytes = Vec::new(alloc);
    let mut piece = [0u8; PIECE];
    'pieces: while (bytes.len() as u64) < size {
        let count = store.read_at(alloc, name, bytes.len() as u64, &mut piece)?;
        if count == 0 {
            break;
        }
        bytes.extend_from_slice(&piece[..count])?;
    }
    // What a file that is being written gained meanwhile is left for another time.
    bytes.truncate(size as usize);
    Ok(bytes)
}

// Whether a file of so many bytes isn't read.
fn is_too_long(size: u64) -> bool
    ensures yes { result ≡ true → MOST_BYTES < size }
    ensures no { result ≡ false → size ≤ MOST_BYTES }
{
    size > MOST_BYTES
}
