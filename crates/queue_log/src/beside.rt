ghost use Rattle.std.specs.Prelude.{◌≡◌, ◌≢◌, ◌↔◌, ◌≤◌, ◌++◌, ℕ, List, true, IsTrue, IfErr, OnOk, codes, length, take};
ghost use Rattle.pool_outer.specs.Files.{bytes_in, Leaves, SameOthers};
ghost use Rattle.pool_store.specs.Moments.{IsReached, LeavesOnly};
ghost use Rattle.queue_log.specs.Logs.{IsBeside, IsBesideRefused};

use crate::error::LogError;
use crate::log::Log;
use pool_outer::Store;
use pool_store::append_solid;
use std::alloc::Global;

impl<D: Store> Log<D> {
    /// Whether a name is that of a file beside the log's: neither that nor the one with `.tmp`
    /// added. Computes in O(bytes of the name), without memory.
    pub fn is_beside(&self, name: &str) -> bool
        ensures { IsTrue result ↔ IsBeside self.now.name name.now }
    {
        let log = self.name.as_str();
        name != log && !is_with_tmp(log, name)
    }

    /// Adds bytes at the end of a file beside the log's, and makes all of it solid. The log stays
    /// as it was, halted or not, also after an error; the file then has a prefix of the bytes at
    /// its end. Computes in O(bytes).
    pub fn append_beside(&mut self, alloc: Global, name: &str, bytes: &[u8]) -> Result<(), LogError>
        requires { IsBeside self.old.name name.now }

        // The log, and the file.
        ensures log { self.new ≡ record self.old { store = self.new.store } }
        ensures durable { D.tells self.old.store ≡ true → OnOk result ((image : List ℕ)
            → Leaves (D.file self.new.store) (D.solid self.new.store) name.now image
            → image ≡ bytes_in (D.file self.old.store name.now) ++ bytes.now) }
        ensures part { D.tells self.old.store ≡ true → (n : ℕ)
            × (bytes_in (D.file self.new.store name.now)
            ≡ bytes_in (D.file self.old.store name.now) ++ take n bytes.now) }
        ensures no_less { D.tells self.old.store ≡ true
            → D.solid self.old.store name.now ≤ D.solid self.new.store name.now }
        ensures refused { IfErr result
            (IsBesideRefused (D.faults self.old.store) (D.faults self.new.store)) }

        // What a stop at any moment leaves of it, and of another file.
        ensures any_moment { D.tells self.old.store ≡ true
            → LeavesOnly D.moment D.left_since name.now self.old.store self.new.store
            (IsReached (D.solid self.old.store name.now)
            (bytes_in (D.file self.old.store name.now)) bytes.now) }
        ensures quiet { D.tells self.old.store ≡ true → (other : List ℕ) → other ≢ name.now
            → LeavesOnly D.moment D.left_since other self.old.store self.new.store
            (Leaves (D.file self.old.store) (D.solid self.old.store) other) }

        // The other files, the names that the store knows, what it tells, and its faults.
        ensures others { D.tells self.old.store ≡ true
            → SameOthers name.now (D.file self.old.store) (D.file self.new.store)
            (D.solid self.old.store) (D.solid self.new.store) }
        ensures known { (other : List ℕ) → D.known self.old.store other ≡ true
            → D.known self.new.store other ≡ true }
        ensures learnt { OnOk result (D.known self.new.store name.now ≡ true) }
        ensures told { D.tells self.new.store ≡ D.tells self.old.store }
        ensures later { D.faults self.old.store ≤ D.faults self.new.store }
        ensures steady { OnOk result (D.faults self.new.store ≡ D.faults self.old.store) }
    {
        match append_solid(alloc, &mut self.store, name, bytes) {
            Ok(()) => Ok(()),
            Err(error) => Err(LogError::from(error)),
        }
    }
}

// Whether a name is another with `.tmp` added.
fn is_with_tmp(log: &str, name: &str) -> bool
    ensures { IsTrue result ↔ (name.now ≡ log.now ++ codes ".tmp") }
{
    match name.as_bytes().strip_suffix(b".tmp") {
        Some(stem) => stem == log.as_bytes(),
        None => false,
    }
}
