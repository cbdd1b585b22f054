//! A store in memory that fails and stops where it was told to.
ghost use Rattle.std.specs.Prelude.{◌≡◌, ◌≢◌, ◌≤◌, ◌+◌, ◌++◌, None, Some, Err, length, take, IfSome, IsErr, IsErrOf, IsOkUnless, IsOkAnd, MatchOption, OnOk};
ghost use Rattle.std.specs.Option.{option_map};
ghost use Rattle.pool_outer.specs.declared.store.StoreError.TheVariants.{Failed};
ghost use Rattle.pool_outer.specs.Cause.{HasCause};
ghost use Rattle.pool_outer.specs.Files.{bytes_in, Appends, Syncs, Cuts, Renames, Misses, Learns, Relabels};
ghost use Rattle.pool_outer.specs.MemoryCalls.{one_more};
ghost use Rattle.pool_store.specs.MemoryFiles.{file_in, size_in, Copies};

use super::file::MemFile;
use super::sure::SureStore;
use pool_outer::{FailingCalls, Store, StoreError, count_fault};
use std::alloc::Global;

/// A `SureStore` some of whose calls fail, by the numbers of all its calls from 0.
///
/// It may stop: once so many bytes were written every call fails, and an append that would pass
/// them writes up to there.
pub struct MemStore {
    inner: SureStore,
    calls: FailingCalls,
    left: Option<u64>,
    faults: u64,
}

impl Drop for MemStore {
    fn drop(self) {
        let MemStore {
            inner: _inner,
            calls: _calls,
            left: _,
            faults: _,
        } = self;
    }
}

impl MemStore {
    ghost use Rattle.pool_store.specs.MemoryParts.{bytes_left, files_in, files_of, names_in, solids_in, store_calls, sure_store, FailsNext, Goes};

    /// Files all of which are solid, and the calls that fail.
    pub fn new(files: Vec<MemFile>, fails: Vec<u64>) -> MemStore
        ensures calls { store_calls result ≡ record { next = 0; fails = fails } }
        ensures files { files_of (sure_store result) ≡ files.items }
        ensures left { bytes_left result ≡ None }
        ensures faults { ⟦<MemStore as Store>⟧.faults result ≡ 0 }
    {
        MemStore {
            inner: SureStore::new(files),
            calls: FailingCalls::new(fails),
            left: None,
            faults: 0,
        }
    }

    /// Stops once so many bytes were written from now on.
    pub fn stop_after(&mut self, bytes: u64)
        ensures left { bytes_left self.new ≡ Some bytes }
        ensures same { self.new ≡ record self.old { left = Some bytes } }
    {
        self.left = Some(bytes);
    }

    /// What its files are, and what a stop may leave of them.
    pub fn files(&self) -> &SureStore
        ensures { result.now ≡ sure_store self.now }
    {
        &self.inner
    }

    // Counts a call, and refuses one that fails.
    fn begin(&mut self) -> Result<(), StoreError>
        ensures fails { FailsNext self.old → IsErrOf result StoreError.Failed }
        ensures only { IsErrOf result StoreError.Failed → FailsNext self.old }
        ensures no_other { IsOkUnless result StoreError.Failed }
        ensures calls { self.new.calls ≡ one_more self.old.calls }
        ensures inner { self.new.inner ≡ self.old.inner }
        ensures left { self.new.left ≡ self.old.left }
        ensures cause { HasCause Failed self.old.faults self.new.faults result }
    {
        let fails = self.calls.fails_now();
        if fails || self.left == Some(0) {
            count_fault(&mut self.faults);
            return Err(StoreError::Failed);
        }
        Ok(())
    }

    // So many of the bytes that were left are written.
    fn use_up(&mut self, count: usize)
        requires { IfSome self.old.left (λ n. count ≤ n) }
        ensures kept { self.new ≡ record self.old { left = self.new.left } }
        ensures left { self.old.left ≡ option_map (λ n. count + n) self.new.left }
    {
        if let Some(left) = self.left {
            self.left = Some(left - count as u64);
        }
    }

    // Appends bytes that may all be written.
    fn write_all(&mut self, alloc: Global, name: &str, bytes: &[u8]) -> Result<(), StoreError>
        requires { IfSome self.old.left (λ n. length bytes.now ≤ n) }
        ensures appends { Appends name.now bytes.now (files_in self.old) (files_in self.new)
            (solids_in self.old) (solids_in self.new) result }
        ensures left { OnOk result
            (self.old.left ≡ option_map (λ n. length bytes.now + n) self.new.left) }
        ensures time { Goes self.old self.new }
        ensures present { result ≢ Err StoreError.Missing }
        ensures sure { result ≢ Err StoreError.Failed }
        ensures known { Learns name.now (names_in self.old) (names_in self.new) result }
        ensures calls { self.new.calls ≡ self.old.calls }
        ensures faults { self.new.faults ≡ self.old.faults }
    {
        self.inner.append(alloc, name, bytes)?;
        self.use_up(bytes.len());
        Ok(())
    }

    // Appends so many of the bytes, and stops.
    fn write_part(
        &mut self,
        alloc: Global,
        name: &str,
        bytes: &[u8],
        count: usize,
    ) -> Result<(), StoreError>
        requires { count ≤ length bytes.now }
        ensures appends { Appends name.now bytes.now (files_in self.old) (files_in self.new)
            (solids_in self.old) (solids_in self.new) result }
        ensures left { IsErrOf result StoreError.Failed → self.new.left ≡ Some 0 }
        ensures part { IsErrOf result StoreError.Failed → bytes_in (files_in self.new name.now)
            ≡ bytes_in (files_in self.old name.now) ++ take count bytes.now }
        ensures fails { IsErr result }
        ensures time { Goes self.old self.new }
        ensures present { result ≢ Err StoreError.Missing }
        ensures known { Learns name.now (names_in self.old) (names_in self.new) result }
        ensures calls { self.new.calls ≡ self.old.calls }
        ensures cause { HasCause Failed self.old.faults self.new.faults result }
    {
        self.inner.append(alloc, name, &bytes[..count])?;
        self.left = Some(0);
        count_fault(&mut self.faults);
        Err(StoreError::Failed)
    }
}

impl Store for MemStore {
    ghost use Rattle.std.specs.Prelude.{true, is_some, length};
    ghost use Rattle.std.proofs.Common.{inl};
    ghost use Rattle.pool_store.specs.MemoryParts.{files_of, sure_store, store_calls, bytes_left, files_in, solids_in, names_in, CountsCall, FailsNext, Goes, WritesUpTo};
    ghost use Rattle.pool_store.specs.MemoryFiles.{file_in, solid_in};
    ghost use Rattle.pool_store.specs.Past.{LeftSince, only_left_now, solid_fits};

    ghost faults = { λ s. s.faults };

    ghost known = { λ s name. is_some (file_in s.inner.files.items name) };

    ghost tells = { λ _. true };

    ghost file = { λ s name. file_in s.inner.files.items name };

    ghost solid = { λ s name. solid_in s.inner.files.items name };

    ghost moment = { λ s. length s.inner.past.items };

    ghost left_since = { λ s name moment image.
        LeftSince s.inner.past.items s.inner.files.items name moment image };

    ghost known_is_there = { λ s name tells known. known };

    ghost solid_is_there = { λ s name tells. solid_fits s.inner.files.items name };

    ghost counts_now = { λ s name moment image tells earlier left. inl left };

    ghost only_now = { λ s name image tells left.
        only_left_now s.inner.past.items s.inner.files.items name image left };

    fn size(&mut self, alloc: Global, name: &str) -> Result<u64, StoreError>
        ensures counted { CountsCall self.old self.new result }
        ensures same { sure_store self.new ≡ sure_store self.old }
        ensures left { bytes_left self.new ≡ bytes_left self.old }
        ensures only { IsErrOf result StoreError.Failed → FailsNext self.old }
        ensures size { result ≢ Err StoreError.Failed
            → result ≡ size_in (files_of (sure_store self.old)) name.now }
    {
        self.begin()?;
        self.inner.size(alloc, name)
    }

    fn read_at(
        &mut self,
        alloc: Global,
        name: &str,
        place: u64,
        into: &mut [u8],
    ) -> Result<usize, StoreError>
        ensures counted { CountsCall self.old self.new result }
        ensures same { sure_store self.new ≡ sure_store self.old }
        ensures left { bytes_left self.new ≡ bytes_left self.old }
        ensures only { IsErrOf result StoreError.Failed → FailsNext self.old }
        ensures read { result ≢ Err StoreError.Failed
            → MatchOption (file_in (files_of (sure_store self.old)) name.now)
            (result ≡ Err StoreError.Missing)
            (λ bytes. IsOkAnd result (λ n. Copies bytes place n into.old into.new)) }
    {
        self.begin()?;
        self.inner.read_at(alloc, name, place, into)
    }

    fn append(&mut self, alloc: Global, name: &str, bytes: &[u8]) -> Result<(), StoreError>
        ensures counted { CountsCall self.old self.new result }
        ensures appends { Appends name.now bytes.now (files_in self.old) (files_in self.new)
            (solids_in self.old) (solids_in self.new) result }
        ensures stop { WritesUpTo name.now bytes.now self.old self.new result }
        ensures time { Goes self.old self.new }
        ensures present { result ≢ Err StoreError.Missing }
        ensures known { Learns name.now (names_in self.old) (names_in self.new) result }
    {
        self.begin()?;
        match self.left {
            Some(left) if (left as usize) < bytes.len() => {
                self.write_part(alloc, name, bytes, left as usize)
            }
            _ => self.write_all(alloc, name, bytes),
        }
    }

    fn sync(&mut self, alloc: Global, name: &str) -> Result<(), StoreError>
        ensures counted { CountsCall self.old self.new result }
        ensures only { IsErrOf result StoreError.Failed → FailsNext self.old }
        ensures syncs { Syncs name.now (files_in self.old) (files_in self.new)
            (solids_in self.old) (solids_in self.new) result }
        ensures left { bytes_left self.new ≡ bytes_left self.old }
        ensures time { Goes self.old self.new }
        ensures missing { Misses true (files_in self.old) (names_in self.old) name.now result }
        ensures known { Learns name.now (names_in self.old) (names_in self.new) result }
    {
        self.begin()?;
        self.inner.sync(alloc, name)
    }

    fn cut(&mut self, alloc: Global, name: &str, size: u64) -> Result<(), StoreError>
        requires { size ≤ length (bytes_in (files_in self.old name.now)) }
        ensures counted { CountsCall self.old self.new result }
        ensures only { IsErrOf result StoreError.Failed → FailsNext self.old }
        ensures cuts { Cuts name.now size (files_in self.old) (files_in self.new)
            (solids_in self.old) (solids_in self.new) result }
        ensures left { bytes_left self.new ≡ bytes_left self.old }
        ensures time { Goes self.old self.new }
        ensures missing { Misses true (files_in self.old) (names_in self.old) name.now result }
        ensures known { Learns name.now (names_in self.old) (names_in self.new) result }
    {
        self.begin()?;
        self.inner.cut(alloc, name, size)
    }

    fn rename(&mut self, alloc: Global, from: &str, to: &str) -> Result<(), StoreError>
        requires apart { from.now ≢ to.now }
        requires durable { length (bytes_in (files_in self.old from.now))
            ≤ solids_in self.old from.now }
        ensures counted { CountsCall self.old self.new result }
        ensures only { IsErrOf result StoreError.Failed → FailsNext self.old }
        ensures renames { Renames from.now to.now (files_in self.old) (files_in self.new)
            (solids_in self.old) (solids_in self.new) result }
        ensures left { bytes_left self.new ≡ bytes_left self.old }
        ensures time { Goes self.old self.new }
        ensures missing { Misses true (files_in self.old) (names_in self.old) from.now result }
        ensures known { Relabels from.now to.now (names_in self.old) (names_in self.new) result }
    {
        self.begin()?;
        self.inner.rename(alloc, from, to)
    }
}
