ghost use Rattle.std.specs.Prelude.{◌≡◌, ◌≢◌, ◌≤◌, ℕ, List, Bool, true, Option, Some, length, IfOk, IsSome};
ghost use Rattle.std.specs.Option.{option_map};
ghost use Rattle.pool_outer.specs.declared.store.StoreError.TheVariants.{Failed, Memory as NoMemory};
ghost use Rattle.pool_outer.specs.Cause.{HasCause};
ghost use Rattle.pool_outer.specs.Files.{bytes_in, ReadAt, Leaves, Elapses, SameFiles, Appends, Syncs, Cuts, Renames, Misses, Learns, Relabels};

use ad_value::Memory;
use std::alloc::{AllocError, AllocFailed, Global};
use std::fmt;
use thiserror::Error;

#[derive(Clone, Copy, PartialEq, Eq, Error)]
pub enum StoreError {
    #[error("no such file")]
    Missing,
    #[error("the disk failed")]
    Failed,
    #[error("out of memory")]
    Memory,
}

impl fmt::Debug for StoreError {
    fn fmt<W: fmt::Write>(&self, f: &mut fmt::Formatter<W>) -> fmt::Result {
        fmt::Display::fmt(self, f)
    }
}

/// Named files.
///
/// A stop leaves of each file its solid bytes and any prefix of the bytes after them. A moment is a
/// count of changes, by which a clause speaks of every stop since an earlier one.
pub trait Store: Drop {
    /// How many calls have failed.
    ghost faults: { Self → ℕ };

    /// Whether a name is known to be there: once a call for it was answered by `Ok`, until a rename
    /// takes it away.
    ghost known: { Self → List ℕ → Bool };

    /// Whether the members below say what the files hold.
    ghost tells: { Self → Bool };

    /// What a read gives of the file of that name, or that there is none.
    ghost file: { Self → List ℕ → Option (List ℕ) };

    /// How many of a file's first bytes a stop leaves for certain.
    ghost solid: { Self → List ℕ → ℕ };

    /// How many changes there were.
    ghost moment: { Self → ℕ };

    /// What a stop at that moment or later, up to now, might have left of the file of that name.
    ghost left_since: { Self → List ℕ → ℕ → List ℕ → Type 0 };

    /// The file's size in bytes.
    fn size(&mut self, alloc: Global, name: &str) -> Result<u64, StoreError>
        ensures size { tells self.old ≡ true
            → IfOk result (λ n. option_map length (file self.old name.now) ≡ Some n) }
        ensures same { tells self.old ≡ true
            → SameFiles (file self.old) (file self.new) (solid self.old) (solid self.new) }
        ensures time { tells self.old ≡ true
            → Elapses (moment self.old) (moment self.new) (left_since self.old)
            (left_since self.new) (file self.new) (solid self.new) }

        // The name, what the store tells, and its faults.
        ensures missing { Misses (tells self.old) (file self.old) (known self.old) name.now result }
        ensures known { Learns name.now (known self.old) (known self.new) result }
        ensures told { tells self.new ≡ tells self.old }
        ensures cause { HasCause Failed (faults self.old) (faults self.new) result };

    /// Copies bytes of the file, from a place on, to the start of a buffer, and says how many: none
    /// for a buffer that isn't empty only at or past the end.
    fn read_at(
        &mut self,
        alloc: Global,
        name: &str,
        place: u64,
        into: &mut [u8],
    ) -> Result<usize, StoreError>
        ensures count { IfOk result (λ n. n ≤ length into.old) }
        ensures read { tells self.old ≡ true
            → IfOk result (λ n. ReadAt (file self.old name.now) place n into.old into.new) }
        ensures same { tells self.old ≡ true
            → SameFiles (file self.old) (file self.new) (solid self.old) (solid self.new) }
        ensures time { tells self.old ≡ true
            → Elapses (moment self.old) (moment self.new) (left_since self.old)
            (left_since self.new) (file self.new) (solid self.new) }

        // The name, what the store tells, and its faults.
        ensures missing { Misses (tells self.old) (file self.old) (known self.old) name.now result }
        ensures known { Learns name.now (known self.old) (known self.new) result }
        ensures told { tells self.new ≡ tells self.old }
        ensures cause { HasCause Failed (faults self.old) (faults self.new) result };

    /// Adds bytes at the end of the file, and makes one that isn't there. An error leaves a prefix
    /// of them there, and is never `Missing`.
    fn append(&mut self, alloc: Global, name: &str, bytes: &[u8]) -> Result<(), StoreError>
        ensures appends { tells self.old ≡ true
            → Appends name.now bytes.now (file self.old) (file self.new) (solid self.old)
            (solid self.new) result }
        ensures time { tells self.old ≡ true
            → Elapses (moment self.old) (moment self.new) (left_since self.old)
            (left_since self.new) (file self.new) (solid self.new) }

        // The name, what the store tells, and its faults.
        ensures present { result ≢ Err StoreError.Missing }
        ensures known { Learns name.now (known self.old) (known self.new) result }
        ensures told { tells self.new ≡ tells self.old }
        ensures cause { HasCause Failed (faults self.old) (faults self.new) result };

    /// Makes solid what a read gives of the file.
    fn sync(&mut self, alloc: Global, name: &str) -> Result<(), StoreError>
        ensures syncs { tells self.old ≡ true
            → Syncs name.now (file self.old) (file self.new) (solid self.old) (solid self.new)
            result }
        ensures time { tells self.old ≡ true
            → Elapses (moment self.old) (moment self.new) (left_since self.old)
            (left_since self.new) (file self.new) (solid self.new) }

        // The name, what the store tells, and its faults.
        ensures missing { Misses (tells self.old) (file self.old) (known self.old) name.now result }
        ensures known { Learns name.now (known self.old) (known self.new) result }
        ensures told { tells self.new ≡ tells self.old }
        ensures cause { HasCause Failed (faults self.old) (faults self.new) result };

    /// Shortens the file to so many bytes, all of them solid. An error leaves it as it was.
    fn cut(&mut self, alloc: Global, name: &str, size: u64) -> Result<(), StoreError>
        requires { tells self.old ≡ true → size ≤ length (bytes_in (file self.old name.now)) }
        ensures cuts { tells self.old ≡ true
            → Cuts name.now size (file self.old) (file self.new) (solid self.old) (solid self.new)
            result }
        ensures time { tells self.old ≡ true
            → Elapses (moment self.old) (moment self.new) (left_since self.old)
            (left_since self.new) (file self.new) (solid self.new) }

        // The name, what the store tells, and its faults.
        ensures missing { Misses (tells self.old) (file self.old) (known self.old) name.now result }
        ensures known { Learns name.now (known self.old) (known self.new) result }
        ensures told { tells self.new ≡ tells self.old }
        ensures cause { HasCause Failed (faults self.old) (faults self.new) result };

    /// Moves a file, all of it solid, over another. An error leaves both as they were.
    fn rename(&mut self, alloc: Global, from: &str, to: &str) -> Result<(), StoreError>
        requires apart { from.now ≢ to.now }
        requires durable { tells self.old ≡ true
            → length (bytes_in (file self.old from.now)) ≤ solid self.old from.now }
        ensures renames { tells self.old ≡ true
            → Renames from.now to.now (file self.old) (file self.new) (solid self.old)
            (solid self.new) result }
        ensures time { tells self.old ≡ true
            → Elapses (moment self.old) (moment self.new) (left_since self.old)
            (left_since self.new) (file self.new) (solid self.new) }

        // The names, what the store tells, and its faults.
        ensures missing { Misses (tells self.old) (file self.old) (known self.old) from.now result }
        ensures known { Relabels from.now to.now (known self.old) (known self.new) result }
        ensures told { tells self.new ≡ tells self.old }
        ensures cause { HasCause Failed (faults self.old) (faults self.new) result };

    /// A name that is known is there.
    ghost known_is_there: { (s : Self) (n : List ℕ)
        → tells s ≡ true → known s n ≡ true → IsSome (file s n) };

    /// No more is solid than there is.
    ghost solid_is_there: { (s : Self) (n : List ℕ)
        → tells s ≡ true → solid s n ≤ length (bytes_in (file s n)) };

    /// Now is one of the moments since an earlier one.
    ghost counts_now: { (s : Self) (n : List ℕ) (t : ℕ) (c : List ℕ)
        → tells s ≡ true → t ≤ moment s → Leaves (file s) (solid s) n c → left_since s n t c };

    /// Since now there is no other moment.
    ghost only_now: { (s : Self) (n : List ℕ) (c : List ℕ)
        → tells s ≡ true → left_since s n (moment s) c → Leaves (file s) (solid s) n c };
}

impl From<Memory> for StoreError {
    ghost from_gives = { λ _ error. error ≡ NoMemory };

    fn from(_: Memory) -> StoreError {
        StoreError::Memory
    }
}

impl From<AllocError> for StoreError {
    ghost from_gives = { λ _ error. error ≡ NoMemory };

    fn from(_: AllocError) -> StoreError {
        StoreError::Memory
    }
}

impl<T: Drop> From<AllocFailed<T>> for StoreError {
    ghost from_gives = { λ _ error. error ≡ NoMemory };

    fn from(_: AllocFailed<T>) -> StoreError {
        StoreError::Memory
    }
}
