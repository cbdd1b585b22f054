ghost use Rattle.std.specs.Prelude.{◌≡◌, ◌≢◌, ◌⊎◌, ◌≤◌, ℕ, List, true, Some, length, take, OnOk, OnErr};
ghost use Rattle.std.specs.Option.{option_map};
ghost use Rattle.pool_outer.specs.declared.store.StoreError.TheVariants.{Failed};
ghost use Rattle.pool_outer.specs.Cause.{HasCause};
ghost use Rattle.pool_outer.specs.Files.{Leaves, Misses, SameFiles, SameOthers};
ghost use Rattle.pool_store.specs.Moments.{LeavesOnly};

use pool_outer::{Store, StoreError};
use std::alloc::Global;

/// Cuts what stands after the first `whole` bytes of a solid file of that size. An error leaves it
/// as it was. Computes in O(1).
pub fn cut_after<D: Store>(
    alloc: Global,
    store: &mut D,
    name: &str,
    size: u64,
    whole: u64,
) -> Result<(), StoreError>
    requires within { D.tells store.old ≡ true → whole ≤ size }
    requires size { D.tells store.old ≡ true
        → option_map length (D.file store.old name.now) ≡ Some size }
    requires solid { D.tells store.old ≡ true → size ≤ D.solid store.old name.now }

    // The file.
    ensures cut { D.tells store.old ≡ true
        → OnOk result (D.file store.new name.now
        ≡ option_map (take whole) (D.file store.old name.now)) }
    ensures solid { D.tells store.old ≡ true → OnOk result (whole ≤ D.solid store.new name.now) }
    ensures refused { D.tells store.old ≡ true → OnErr result
        (SameFiles (D.file store.old) (D.file store.new) (D.solid store.old) (D.solid store.new)) }
    ensures others { D.tells store.old ≡ true
        → SameOthers name.now (D.file store.old) (D.file store.new) (D.solid store.old)
        (D.solid store.new) }

    // What a stop at any moment leaves of it: all of it, or what is left of it at last; and of
    // another file.
    ensures any_moment { D.tells store.old ≡ true
        → LeavesOnly D.moment D.left_since name.now store.old store.new
        (λ image. Leaves (D.file store.old) (D.solid store.old) name.now image
        ⊎ Leaves (D.file store.new) (D.solid store.new) name.now image) }
    ensures quiet { D.tells store.old ≡ true → (other : List ℕ) → other ≢ name.now
        → LeavesOnly D.moment D.left_since other store.old store.new
        (Leaves (D.file store.old) (D.solid store.old) other) }

    // The name, what the store tells, and its faults.
    ensures missing { Misses (D.tells store.old) (D.file store.old) (D.known store.old) name.now
        result }
    ensures known { (other : List ℕ) → D.known store.old other ≡ true
        → D.known store.new other ≡ true }
    ensures told { D.tells store.new ≡ D.tells store.old }
    ensures cause { HasCause Failed (D.faults store.old) (D.faults store.new) result }
{
    if whole < size {
        return store.cut(alloc, name, whole);
    }
    Ok(())
}
