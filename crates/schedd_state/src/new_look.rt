ghost use Rattle.std.specs.Prelude.{◌≡◌, IfOk};

use crate::looks::{Look, LookTime, Noted};
use ad_value::Memory;
use ordered_map::NewEntry;
use queue_tx::Key;
use std::alloc::Global;
use std::marker::Model;

/// A look at a job that is to come to the others, with its memory. Contracts see its job and time.
#[derive(Drop)]
pub struct NewLook {
    pub(crate) entry: NewEntry<Key, LookTime>,
    pub(crate) time: NewEntry<Look, Noted>,
}

impl Model for NewLook {
    ghost use Rattle.std.specs.Prelude.{◌≡◌, ℕ};
    ghost use Rattle.queue_tx.specs.declared.key.Key.{Key};

    ghost Value = { Key × ℕ };

    ghost view = { λ l. l.entry };

    ghost invariant = { λ l. l.time.0 ≡ record { at = l.entry.1; key = l.entry.0 } };
}

impl NewLook {
    /// A look at a job. Computes in O(1).
    pub fn new(alloc: Global, key: Key, at: u64) -> Result<NewLook, Memory>
        ensures { IfOk result (λ look. look ≡ (key, at)) }
    {
        let entry = NewEntry::new(alloc, key, LookTime { at })?;
        let time = NewEntry::new(alloc, Look { at, key }, Noted)?;
        Ok(NewLook { entry, time })
    }
}
