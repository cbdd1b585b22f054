// Opening the file of boots.

ghost use Rattle.std.specs.Prelude.{◌≡◌, ◌≢◌, ◌⊎◌, ◌≤◌, ℕ, List, true, None, Some, length, IfOk, IfErr, IsSome, OnErr, OnOk};
ghost use Rattle.pool_outer.specs.Files.{bytes_in, Leaves, SameOthers};
ghost use Rattle.pool_store.specs.Moments.{KeepsFile, LeavesOnly};
ghost use Rattle.pool_store.specs.Openings.{AreOpened, AreWholeLines, IsOpenRefused};

use crate::boots::{Boots, read_boots};
use crate::cut::cut_after;
use crate::error::OpenBootsError;
use crate::read::read_solid;
use pool_outer::{Store, StoreError};
use std::alloc::Global;

/// What the file of boots of that name says: it is made solid, read whole, and cut after its last
/// whole line. A file that isn't there says what an empty one does, and is not made.
///
/// `BadNumber` has the first bad line, from 1. An error leaves the file's bytes as they were.
/// Computes in O(bytes of the file), with memory for them.
pub fn open_boots<D: Store>(
    alloc: Global,
    store: &mut D,
    name: &str,
) -> Result<Boots, OpenBootsError>
    // What it gives, and what it leaves of the file.
    ensures opened { D.tells store.old ≡ true → IfOk result (AreOpened
        (D.file store.old name.now) (D.file store.new name.now) (D.solid store.new name.now)) }
    ensures refused { IfErr result (IsOpenRefused (D.tells store.old)
        (bytes_in (D.file store.old name.now)) (D.faults store.old) (D.faults store.new)) }
    ensures kept { D.tells store.old ≡ true → OnErr result
        (KeepsFile D.file D.solid D.moment D.left_since name.now store.old store.new) }

    // What a stop at any moment leaves of it: what it might have left before, or the whole lines.
    ensures any_moment { D.tells store.old ≡ true
        → LeavesOnly D.moment D.left_since name.now store.old store.new
        (λ image. Leaves (D.file store.old) (D.solid store.old) name.now image
        ⊎ AreWholeLines (bytes_in (D.file store.old name.now)) image) }

    // The other files.
    ensures others { D.tells store.old ≡ true
        → SameOthers name.now (D.file store.old) (D.file store.new) (D.solid store.old)
        (D.solid store.new) }
    ensures quiet { D.tells store.old ≡ true → (other : List ℕ) → other ≢ name.now
        → LeavesOnly D.moment D.left_since other store.old store.new
        (Leaves (D.file store.old) (D.solid store.old) other) }

    // The names, what the store tells, and its faults.
    ensures known { (other : List ℕ) → D.known store.old other ≡ true
        → D.known store.new other ≡ true }
    ensures told { D.tells store.new ≡ D.tells store.old }
    ensures later { D.faults store.old ≤ D.faults store.new }
    ensures no_fault { IfOk result (λ boots. IsSome boots.largest
        → D.faults store.new ≡ D.faults store.old) }
    ensures no_fault_there { D.tells store.old ≡ true → IsSome (D.file store.old name.now)
        → OnOk result (D.faults store.new ≡ D.faults store.old) }
{
    match read_solid(alloc, store, name) {
        Ok(bytes) => cut_tail(alloc, store, name, &bytes),
        Err(StoreError::Missing) => Ok(Boots {
            largest: None,
            whole: 0,
        }),
        Err(StoreError::Failed) => Err(OpenBootsError::Failed),
        Err(StoreError::Memory) => Err(OpenBootsError::Memory),
    }
}

// What a file says that has these bytes, all of them solid, and is cut after its whole lines.
fn cut_tail<D: Store>(
    alloc: Global,
    store: &mut D,
    name: &str,
    bytes: &[u8],
) -> Result<Boots, OpenBootsError>
    requires known { D.known store.old name.now ≡ true }
    requires bytes { D.tells store.old ≡ true → D.file store.old name.now ≡ Some bytes.now }
    requires solid { D.tells store.old ≡ true
        → length (bytes_in (D.file store.old name.now)) ≤ D.solid store.old name.now }

    // What it gives, and what it leaves of the file.
    ensures opened { D.tells store.old ≡ true → IfOk result (AreOpened
        (D.file store.old name.now) (D.file store.new name.now) (D.solid store.new name.now)) }
    ensures refused { IfErr result (IsOpenRefused (D.tells store.old)
        (bytes_in (D.file store.old name.now)) (D.faults store.old) (D.faults store.new)) }
    ensures kept { D.tells store.old ≡ true → OnErr result
        (KeepsFile D.file D.solid D.moment D.left_since name.now store.old store.new) }

    // What a stop at any moment leaves of it.
    ensures any_moment { D.tells store.old ≡ true
        → LeavesOnly D.moment D.left_since name.now store.old store.new
        (λ image. Leaves (D.file store.old) (D.solid store.old) name.now image
        ⊎ AreWholeLines (bytes_in (D.file store.old name.now)) image) }

    // The other files.
    ensures others { D.tells store.old ≡ true
        → SameOthers name.now (D.file store.old) (D.file store.new) (D.solid store.old)
        (D.solid store.new) }
    ensures quiet { D.tells store.old ≡ true → (other : List ℕ) → other ≢ name.now
        → LeavesOnly D.moment D.left_since other store.old store.new
        (Leaves (D.file store.old) (D.solid store.old) other) }

    // The names, what the store tells, and its faults.
    ensures known { (other : List ℕ) → D.known store.old other ≡ true
        → D.known store.new other ≡ true }
    ensures told { D.tells store.new ≡ D.tells store.old }
    ensures later { D.faults store.old ≤ D.faults store.new }
    ensures no_fault { OnOk result (D.faults store.new ≡ D.faults store.old) }
{
    let boots = match read_boots(bytes) {
        Ok(boots) => boots,
        Err(error) => return Err(OpenBootsError::from(error)),
    };
    match cut_after(alloc, store, name, bytes.len() as u64, boots.whole) {
        Ok(()) => Ok(boots),
        Err(error) => Err(OpenBootsError::from(error)),
    }
}
