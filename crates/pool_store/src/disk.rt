//! Files of the system.
ghost use Rattle.std.specs.Prelude.{◌≡◌, ◌≢◌, ◌≤◌, ◌<◌, ℕ, List, true, false, Ok, IfOk, IsErrOf, MatchOption, length, vec_len, vec_capacity};
ghost use Rattle.pool_outer.specs.declared.store.StoreError.TheVariants.{Failed};
ghost use Rattle.pool_outer.specs.Cause.{HasCause, Rose};
ghost use Rattle.pool_outer.specs.Files.{Learns, is_named};

mod lock;
mod opened;
mod written;

use ad_value::{Memory, Text};
pub use lock::LockFile;
use pool_outer::{Store, StoreError, count_fault};
use std::alloc::Global;
use std::io::{ErrorKind, Read, Seek, SeekFrom};
use std::rt::Files;
use std::{fs, io};
use written::WrittenFiles;

/// Files of the system, by their paths. It tells nothing of what they hold.
///
/// Before the first call that may change a file (`append`, `sync`, `cut`, and `rename` of both its
/// names), the store takes the system's advisory lock on it. It has the lock until the store is
/// dropped or a rename replaces the file, and a file that is moved keeps it. Where another process
/// has the lock, the call is `Failed`. What isn't a regular file is not locked.
///
/// A name in a folder is durable after the first sync of the file since it was opened.
///
/// A file that the system failed to sync, or whose folder it failed to sync then, is failed from
/// then on, under each name: a call that would change it, replace it or sync it is `Failed`. So is
/// a rename in that folder, and the first sync of another file there. For the system may drop what
/// it could not write, and answer the next sync by `Ok`. Sizes and reads stay as they are.
#[derive(Drop)]
pub struct DiskStore<R: Files + Drop>
where
    R::File: LockFile,
{
    rt: R,
    known: Vec<Text>,
    written: WrittenFiles<R::File>,
    faults: u64,
}

impl<R: Files + Drop> DiskStore<R>
where
    R::File: LockFile,
{
    /// A store that has changed no file, and has locked none. Computes in O(1).
    pub fn new(alloc: Global, rt: R) -> DiskStore<R>
        ensures faults { ⟦<DiskStore<R> as Store>⟧.faults result ≡ 0 }
        ensures known { (name : List ℕ) → ⟦<DiskStore<R> as Store>⟧.known result name ≡ false }
    {
        DiskStore {
            rt,
            known: Vec::new(alloc),
            written: WrittenFiles::new(alloc),
            faults: 0,
        }
    }

    fn knows(&self, name: &str) -> bool
        ensures { result ≡ is_named self.now.known.items name.now }
    {
        self.known.iter().any(|known| known.as_str() == name)
    }

    // Room for a name that isn't known yet, and the name.
    fn room_for(&mut self, alloc: Global, name: &str) -> Result<Option<Text>, Memory>
        ensures room { IfOk result (λ new. MatchOption new
            (is_named self.new.known.items name.now ≡ true)
            (λ text. (text ≡ name.now) × (vec_len self.new.known < vec_capacity self.new.known))) }
        ensures known { self.new.known.items ≡ self.old.known.items }
        ensures faults { self.new.faults ≡ self.old.faults }
    {
        if self.knows(name) {
            return Ok(None);
        }
        let text = Text::from_str(alloc, name)?;
        self.known.reserve(1)?;
        Ok(Some(text))
    }

    // From now on the file is known to be there.
    #[tactic(auto, using(crate::proofs::Names::pushed_is_named))]
    fn learn(&mut self, name: &str, new: Option<Text>)
        requires { MatchOption new (is_named self.old.known.items name.now ≡ true)
            (λ text. (text ≡ name.now) × (vec_len self.old.known < vec_capacity self.old.known)) }
        ensures known { is_named self.new.known.items name.now ≡ true }
        ensures stays { (n : List ℕ)
            → is_named self.old.known.items n ≡ true → is_named self.new.known.items n ≡ true }
        ensures faults { self.new.faults ≡ self.old.faults }
    {
        if let Some(text) = new {
            self.known.push(text).unwrap();
        }
    }

    // What a call that makes a name known is answered by, where it came to that.
    fn answer<T: Drop>(
        &mut self,
        name: &str,
        new: Option<Text>,
        outcome: io::Result<T>,
    ) -> Result<T, StoreError>
        requires { MatchOption new (is_named self.old.known.items name.now ≡ true)
            (λ text. (text ≡ name.now) × (vec_len self.old.known < vec_capacity self.old.known)) }
        ensures value { IfOk result (λ value. outcome ≡ Ok value) }
        ensures known { Learns name.now (is_named self.old.known.items)
            (is_named self.new.known.items) result }
        ensures missing { IsErrOf result StoreError.Missing
            → is_named self.old.known.items name.now ≡ false }
        ensures cause { HasCause Failed self.old.faults self.new.faults result }
    {
        match outcome {
            Ok(value) => {
                self.learn(name, new);
                Ok(value)
            }
            Err(error) => Err(self.refusal(name, &error)),
        }
    }

    // The file isn't known to be there any more.
    fn forget(&mut self, name: &str)
        ensures forgotten { is_named self.new.known.items name.now ≡ false }
        ensures others { (n : List ℕ) → n ≢ name.now
            → is_named self.new.known.items n ≡ is_named self.old.known.items n }
        ensures faults { self.new.faults ≡ self.old.faults }
    {
        self.known.retain(|known| known.as_str() != name);
    }

    fn failure(&mut self, error: &io::Error) -> StoreError
        ensures present { result ≢ StoreError.Missing }
        ensures known { self.new.known ≡ self.old.known }
        ensures later { self.old.faults ≤ self.new.faults }
        ensures rose { result ≡ StoreError.Failed → Rose self.old.faults self.new.faults }
    {
        if error.kind() == ErrorKind::OutOfMemory {
            return StoreError::Memory;
        }
        count_fault(&mut self.faults);
        StoreError::Failed
    }

    // A known file that isn't there any more has failed.
    fn refusal(&mut self, name: &str, error: &io::Error) -> StoreError
        ensures missing { result ≡ StoreError.Missing
            → is_named self.old.known.items name.now ≡ false }
        ensures known { self.new.known ≡ self.old.known }
        ensures later { self.old.faults ≤ self.new.faults }
        ensures rose { result ≡ StoreError.Failed → Rose self.old.faults self.new.faults }
    {
        match error.kind() {
            ErrorKind::NotFound if !self.knows(name) => StoreError::Missing,
            _ => self.failure(error),
        }
    }
}

impl<R: Files + Drop> Store for DiskStore<R>
where
    R::File: LockFile,
{
    ghost use Rattle.std.specs.Prelude.{false, None};
    ghost use Rattle.pool_outer.specs.Files.{is_named};

    ghost faults = { λ s. s.faults };

    ghost known = { λ s name. is_named s.known.items name };

    ghost tells = { λ _. false };

    ghost file = { λ _ _. None };

    ghost solid = { λ _ _. 0 };

    ghost moment = { λ _. 0 };

    ghost left_since = { λ _ _ _ _. Unit {0} };

    ghost known_is_there = { λ s name tells known. Prim.cc };

    ghost solid_is_there = { λ s name tells. Prim.cc };

    ghost counts_now = { λ s name moment image tells earlier left. tt };

    ghost only_now = { λ s name image tells left. Prim.cc };

    fn size(&mut self, alloc: Global, name: &str) -> Result<u64, StoreError> {
        let new = self.room_for(alloc, name)?;
        let size = size_of(&self.rt, name);
        self.answer(name, new, size)
    }

    fn read_at(
        &mut self,
        alloc: Global,
        name: &str,
        place: u64,
        into: &mut [u8],
    ) -> Result<usize, StoreError> {
        let new = self.room_for(alloc, name)?;
        let count = read_from(&self.rt, name, place, into);
        self.answer(name, new, count)
    }

    // A known file that isn't there any more isn't made anew.
    fn append(&mut self, alloc: Global, name: &str, bytes: &[u8]) -> Result<(), StoreError> {
        let new = self.room_for(alloc, name)?;
        match self.written.append(&self.rt, name, new.is_some(), bytes) {
            Ok(()) => {
                self.learn(name, new);
                Ok(())
            }
            Err(error) => Err(self.failure(&error)),
        }
    }

    fn sync(&mut self, alloc: Global, name: &str) -> Result<(), StoreError> {
        let new = self.room_for(alloc, name)?;
        let synced = self.written.sync(&self.rt, name);
        self.answer(name, new, synced)
    }

    fn cut(&mut self, alloc: Global, name: &str, size: u64) -> Result<(), StoreError> {
        let new = self.room_for(alloc, name)?;
        let cut = self.written.cut(&self.rt, name, size);
        self.answer(name, new, cut)
    }

    fn rename(&mut self, alloc: Global, from: &str, to: &str) -> Result<(), StoreError> {
        let new = self.room_for(alloc, to)?;
        if let Err(error) = fs::metadata(&self.rt, from) {
            return Err(self.refusal(from, &error));
        }
        match self.written.rename(&self.rt, from, to) {
            Ok(()) => {
                self.learn(to, new);
                self.forget(from);
                Ok(())
            }
            Err(error) => Err(self.failure(&error)),
        }
    }
}

fn size_of<R: Files>(rt: &R, name: &str) -> io::Result<u64> {
    Ok(fs::metadata(rt, name)?.len())
}

fn read_from<R: Files>(rt: &R, name: &str, place: u64, into: &mut [u8]) -> io::Result<usize>
    ensures { IfOk result (λ n. n ≤ length into.old) }
{
    let mut file = fs::open(rt, name)?;
    file.seek(SeekFrom::Start(place))?;
    file.read(into)
}
