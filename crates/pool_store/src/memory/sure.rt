//! A store in memory that never fails.
ghost use Rattle.std.specs.Prelude.{◌≡◌, ◌++◌, ◌∷◌, [], OnOk, OnErr, IsOkAnd, MatchOption, IsOkUnless};
ghost use Rattle.std.specs.Option.{option_copied};
ghost use Rattle.pool_store.specs.MemoryFiles.{file_in, size_in, Copies};

use super::file::MemFile;
use super::files::{append_to, cut_in, file_of, rename_in, sync_in};
use pool_outer::{Store, StoreError};
use std::alloc::Global;
use std::snapshot::Snapshot;

/// Files in memory, which never fail. The first file of a name counts.
#[derive(Drop)]
pub struct SureStore {
    files: Vec<MemFile>,
    // What the files were at each earlier moment. It takes no bytes.
    past: Vec<Snapshot<Vec<MemFile>>>,
}

impl SureStore {
    ghost use Rattle.std.specs.Prelude.{◌↔◌, IsTrue};
    ghost use Rattle.pool_store.specs.MemoryParts.{files_of};
    ghost use Rattle.pool_store.specs.Past.{LeftNow};

    pub fn new(files: Vec<MemFile>) -> SureStore
        ensures { files_of result ≡ files.items }
    {
        let past = Vec::new(*files.allocator());
        SureStore { files, past }
    }

    /// What a read gives of a file. Computes in O(files).
    pub fn bytes(&self, name: &str) -> Option<&[u8]>
        ensures { option_copied result ≡ file_in (files_of self.now) name.now }
    {
        file_of(self.files.as_slice(), name).map(|file| file.bytes())
    }

    /// Whether a stop may leave these bytes of a file. Computes in O(files + bytes).
    pub fn is_image(&self, name: &str, image: &[u8]) -> bool
        ensures { IsTrue result ↔ LeftNow (files_of self.now) name.now image.now }
    {
        match file_of(self.files.as_slice(), name) {
            Some(file) => file.has_image(image),
            None => image.is_empty(),
        }
    }

    // A moment ends, after which the files may change.
    fn keep(&mut self) -> Result<(), StoreError>
        ensures past { OnOk result ((was : _) × ((was.value ≡ self.old.files)
            × (self.new.past.items ≡ self.old.past.items ++ was ∷ []))) }
        ensures err { OnErr result (self.new.past.items ≡ self.old.past.items) }
        ensures files { self.new.files ≡ self.old.files }
        ensures only { IsOkUnless result StoreError.Memory }
    {
        let was = Snapshot::of(&self.files);
        match self.past.push(was) {
            Ok(()) => return Ok(()),
            Err(_) => return Err(StoreError::Memory),
        }
    }
}

impl Store for SureStore {
    ghost use Rattle.std.specs.Prelude.{true, is_some, length};
    ghost use Rattle.std.proofs.Common.{inl};
    ghost use Rattle.pool_store.specs.MemoryParts.{files_of};
    ghost use Rattle.pool_store.specs.MemoryFiles.{file_in, solid_in};
    ghost use Rattle.pool_store.specs.Past.{LeftSince, only_left_now, solid_fits};

    ghost faults = { λ _. 0 };

    ghost known = { λ s name. is_some (file_in s.files.items name) };

    ghost tells = { λ _. true };

    ghost file = { λ s name. file_in s.files.items name };

    ghost solid = { λ s name. solid_in s.files.items name };

    ghost moment = { λ s. length s.past.items };

    ghost left_since = { λ s name moment image.
        LeftSince s.past.items s.files.items name moment image };

    ghost known_is_there = { λ s name tells known. known };

    ghost solid_is_there = { λ s name tells. solid_fits s.files.items name };

    ghost counts_now = { λ s name moment image tells earlier left. inl left };

    ghost only_now = { λ s name image tells left.
        only_left_now s.past.items s.files.items name image left };

    fn size(&mut self, _alloc: Global, name: &str) -> Result<u64, StoreError>
        ensures size { result ≡ size_in (files_of self.old) name.now }
        ensures same { self.new ≡ self.old }
    {
        match self.bytes(name) {
            Some(bytes) => Ok(bytes.len() as u64),
            None => Err(StoreError::Missing),
        }
    }

    fn read_at(
        &mut self,
        _alloc: Global,
        name: &str,
        place: u64,
        into: &mut [u8],
    ) -> Result<usize, StoreError>
        ensures read { MatchOption (file_in (files_of self.old) name.now)
            (result ≡ Err StoreError.Missing)
            (λ bytes. IsOkAnd result (λ n. Copies bytes place n into.old into.new)) }
        ensures same { self.new ≡ self.old }
    {
        match self.bytes(name) {
            Some(bytes) => Ok(copy_from(bytes, place, into)),
            None => Err(StoreError::Missing),
        }
    }

    fn append(&mut self, alloc: Global, name: &str, bytes: &[u8]) -> Result<(), StoreError> {
        self.keep()?;
        append_to(alloc, &mut self.files, name, bytes)
    }

    fn sync(&mut self, _alloc: Global, name: &str) -> Result<(), StoreError> {
        self.keep()?;
        sync_in(&mut self.files, name)
    }

    fn cut(&mut self, _alloc: Global, name: &str, size: u64) -> Result<(), StoreError> {
        self.keep()?;
        cut_in(&mut self.files, name, size)
    }

    fn rename(&mut self, alloc: Global, from: &str, to: &str) -> Result<(), StoreError> {
        self.keep()?;
        rename_in(alloc, &mut self.files, from, to)
    }
}

// Copies bytes from a place on to the start of a buffer, and says how many.
fn copy_from(bytes: &[u8], place: u64, into: &mut [u8]) -> usize
    ensures { Copies bytes.now place result into.old into.new }
{
    let start = bytes.len().min(place as usize);
    let rest = &bytes[start..];
    let count = rest.len().min(into.len());
    into[..count].copy_from_slice(&rest[..count]);
    count
}
