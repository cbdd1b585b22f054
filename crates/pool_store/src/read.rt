// Reading a file whole.

ghost use Rattle.std.specs.Prelude.{◌≡◌, ◌≢◌, ◌≤◌, ◌<◌, ◌+◌, ℕ, List, true, Some, Ok, Err, length, take, IfOk, OnOk};
ghost use Rattle.pool_outer.specs.declared.store.StoreError.TheVariants.{Failed, Missing};
ghost use Rattle.pool_outer.specs.Cause.{HasCause};
ghost use Rattle.pool_outer.specs.Files.{bytes_in, Learns, Leaves, Misses, SameFiles, SameOthers};
ghost use Rattle.pool_store.specs.Moments.{KeepsFile, LeavesOnly};

use pool_outer::{Store, StoreError};
use std::alloc::{AllocError, Global};

/// How many bytes are asked for at once.
const PIECE: usize = 65_536;

// All bytes of a file, once they are solid.
pub(crate) fn read_solid<D: Store>(
    alloc: Global,
    store: &mut D,
    name: &str,
) -> Result<Vec<u8>, StoreError>
    // What is read.
    ensures read { D.tells store.old ≡ true
        → IfOk result (λ bytes. D.file store.old name.now ≡ Some bytes.items) }

    // The files.
    ensures solid { D.tells store.old ≡ true → OnOk result
        (length (bytes_in (D.file store.new name.now)) ≤ D.solid store.new name.now) }
    ensures keeps { D.tells store.old ≡ true
        → KeepsFile D.file D.solid D.moment D.left_since name.now store.old store.new }
    ensures others { D.tells store.old ≡ true
        → SameOthers name.now (D.file store.old) (D.file store.new) (D.solid store.old)
        (D.solid store.new) }
    ensures quiet { D.tells store.old ≡ true → (other : List ℕ) → other ≢ name.now
        → LeavesOnly D.moment D.left_since other store.old store.new
        (Leaves (D.file store.old) (D.solid store.old) other) }

    // The name, what the store tells, and its faults.
    ensures missing { Misses (D.tells store.old) (D.file store.old) (D.known store.old) name.now
        result }
    ensures known { Learns name.now (D.known store.old) (D.known store.new) result }
    ensures told { D.tells store.new ≡ D.tells store.old }
    ensures cause { HasCause Failed (D.faults store.old) (D.faults store.new) result }
{
    match store.sync(alloc, name) {
        Ok(()) => read_whole(alloc, store, name),
        Err(error) => Err(error),
    }
}

// All bytes of a file.
fn read_whole<D: Store>(alloc: Global, store: &mut D, name: &str) -> Result<Vec<u8>, StoreError>
    requires { D.known store.old name.now ≡ true }

    // What is read, and of which files.
    ensures read { D.tells store.old ≡ true
        → IfOk result (λ bytes. D.file store.old name.now ≡ Some bytes.items) }
    ensures same { D.tells store.old ≡ true
        → SameFiles (D.file store.old) (D.file store.new) (D.solid store.old) (D.solid store.new) }
    ensures keeps { D.tells store.old ≡ true → (each : List ℕ)
        → KeepsFile D.file D.solid D.moment D.left_since each store.old store.new }

    // The names, what the store tells, and its faults.
    ensures present { result ≢ Err Missing }
    ensures known { (other : List ℕ) → D.known store.old other ≡ true
        → D.known store.new other ≡ true }
    ensures told { D.tells store.new ≡ D.tells store.old }
    ensures cause { HasCause Failed (D.faults store.old) (D.faults store.new) result }
{
    let mut piece = match zeros(alloc, PIECE) {
        Ok(piece) => piece,
        Err(_) => return Err(StoreError::Memory),
    };
    let mut bytes = Vec::new(alloc);
    'pieces: loop {
        let count = match read_piece(alloc, store, name, &mut piece, &mut bytes) {
            Ok(count) => count,
            Err(error) => return Err(error),
        };
        if count == 0 {
            return Ok(bytes);
        }
    }
}

fn zeros(alloc: Global, count: usize) -> Result<Vec<u8>, AllocError>
    ensures { IfOk result (λ bytes. length bytes.items ≡ count) }
{
    vec![in alloc; 0; count]
}

// Reads on where the bytes of a file end that were read so far, and says how many bytes: none only
// at the end of the file.
fn read_piece<D: Store>(
    alloc: Global,
    store: &mut D,
    name: &str,
    piece: &mut [u8],
    bytes: &mut Vec<u8>,
) -> Result<usize, StoreError>
    requires known { D.known store.old name.now ≡ true }
    requires room { 0 < length piece.old }

    // What is read.
    ensures count { IfOk result
        (λ n. length bytes.new.items ≡ length bytes.old.items + n) }
    ensures prefix { D.tells store.old ≡ true
        → bytes.old.items ≡ take (length bytes.old.items) (bytes_in (D.file store.old name.now))
        → OnOk result (bytes.new.items
        ≡ take (length bytes.new.items) (bytes_in (D.file store.old name.now))) }
    ensures whole { D.tells store.old ≡ true
        → bytes.old.items ≡ take (length bytes.old.items) (bytes_in (D.file store.old name.now))
        → result ≡ Ok 0 → D.file store.old name.now ≡ Some bytes.new.items }

    // The files.
    ensures same { D.tells store.old ≡ true
        → SameFiles (D.file store.old) (D.file store.new) (D.solid store.old) (D.solid store.new) }
    ensures keeps { D.tells store.old ≡ true → (each : List ℕ)
        → KeepsFile D.file D.solid D.moment D.left_since each store.old store.new }

    // The names, what the store tells, and its faults.
    ensures present { result ≢ Err Missing }
    ensures known { (other : List ℕ) → D.known store.old other ≡ true
        → D.known store.new other ≡ true }
    ensures told { D.tells store.new ≡ D.tells store.old }
    ensures cause { HasCause Failed (D.faults store.old) (D.faults store.new) result }
{
    let count = match store.read_at(alloc, name, bytes.len() as u64, piece) {
        Ok(count) => count,
        Err(error) => return Err(error),
    };
    match bytes.extend_from_slice(&piece[..count]) {
        Ok(()) => Ok(count),
        Err(_) => Err(StoreError::Memory),
    }
}
