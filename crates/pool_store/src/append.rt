ghost use Rattle.std.specs.Prelude.{◌≡◌, ◌≢◌, ◌≤◌, ◌++◌, ℕ, List, true, Err, Some, length, take, OnOk};
ghost use Rattle.pool_outer.specs.declared.store.StoreError.TheVariants.{Failed, Missing};
ghost use Rattle.pool_outer.specs.Cause.{HasCause};
ghost use Rattle.pool_outer.specs.Files.{bytes_in, Leaves, Learns, SameOthers};
ghost use Rattle.pool_store.specs.Moments.{IsReached, LeavesOnly};

use pool_outer::{Store, StoreError};
use std::alloc::Global;

/// Adds bytes at the end of a file, and makes one that isn't there; then makes all of it solid. An
/// error leaves a prefix of the bytes there, and is never `Missing`. Computes in O(bytes).
pub fn append_solid<D: Store>(
    alloc: Global,
    store: &mut D,
    name: &str,
    bytes: &[u8],
) -> Result<(), StoreError>
    // The file.
    ensures added { D.tells store.old ≡ true → OnOk result (D.file store.new name.now
        ≡ Some (bytes_in (D.file store.old name.now) ++ bytes.now)) }
    ensures solid { D.tells store.old ≡ true → OnOk result (D.solid store.new name.now
        ≡ length (bytes_in (D.file store.new name.now))) }
    ensures part { D.tells store.old ≡ true → (n : ℕ)
        × (bytes_in (D.file store.new name.now)
        ≡ bytes_in (D.file store.old name.now) ++ take n bytes.now) }
    ensures no_less { D.tells store.old ≡ true
        → D.solid store.old name.now ≤ D.solid store.new name.now }
    ensures others { D.tells store.old ≡ true
        → SameOthers name.now (D.file store.old) (D.file store.new) (D.solid store.old)
        (D.solid store.new) }

    // What a stop at any moment leaves of it, and of another file.
    ensures any_moment { D.tells store.old ≡ true
        → LeavesOnly D.moment D.left_since name.now store.old store.new
        (IsReached (D.solid store.old name.now) (bytes_in (D.file store.old name.now)) bytes.now) }
    ensures quiet { D.tells store.old ≡ true → (other : List ℕ) → other ≢ name.now
        → LeavesOnly D.moment D.left_since other store.old store.new
        (Leaves (D.file store.old) (D.solid store.old) other) }

    // The name, what the store tells, and its faults.
    ensures present { result ≢ Err StoreError.Missing }
    ensures known { Learns name.now (D.known store.old) (D.known store.new) result }
    ensures told { D.tells store.new ≡ D.tells store.old }
    ensures cause { HasCause Failed (D.faults store.old) (D.faults store.new) result }
{
    store.append(alloc, name, bytes)?;
    store.sync(alloc, name)
}
