//! What the calls of a store do to a list of files.
ghost use Rattle.std.specs.Prelude.{◌≡◌, ◌≢◌, None, filter, not, vec_len, vec_capacity, ◌≤◌, length, IsErrOf, IsOkUnless};
ghost use Rattle.std.specs.Option.{option_copied};
ghost use Rattle.std.specs.List.{position_from};
ghost use Rattle.std.specs.Str.{bytes_eq};
ghost use Rattle.pool_outer.specs.Files.{bytes_in, Appends, Syncs, Cuts, Renames};
ghost use Rattle.pool_store.specs.MemoryFiles.{found_in, file_in, solid_in};

use super::file::MemFile;
use ad_value::Text;
use pool_outer::StoreError;
use std::alloc::Global;

pub(super) fn file_of<'a>(files: &'a [MemFile], name: &str) -> Option<&'a MemFile>
    ensures { option_copied result ≡ found_in files.now name.now }
{
    files.iter().find(|file| file.name() == name)
}

// The place of the first file of that name.
fn place_of(files: &[MemFile], name: &str) -> Option<usize>
    ensures { result ≡ position_from (λ file. bytes_eq file.name name.now) 0 files.now }
{
    files.iter().position(|file| file.name() == name)
}

pub(super) fn append_to(
    alloc: Global,
    files: &mut Vec<MemFile>,
    name: &str,
    bytes: &[u8],
) -> Result<(), StoreError>
    ensures appends { Appends name.now bytes.now (file_in files.old.items)
        (file_in files.new.items) (solid_in files.old.items) (solid_in files.new.items) result }
    ensures only { IsOkUnless result StoreError.Memory }
{
    match place_of(files, name) {
        Some(place) => files[place].append(bytes)?,
        None => {
            let file = MemFile::loose(Text::from_str(alloc, name)?, bytes.to_vec(alloc)?);
            files.push(file)?;
        }
    }
    Ok(())
}

pub(super) fn sync_in(files: &mut Vec<MemFile>, name: &str) -> Result<(), StoreError>
    ensures syncs { Syncs name.now (file_in files.old.items) (file_in files.new.items)
        (solid_in files.old.items) (solid_in files.new.items) result }
    ensures only { IsOkUnless result StoreError.Missing }
    ensures missing { IsErrOf result StoreError.Missing → file_in files.old.items name.now ≡ None }
{
    match place_of(files, name) {
        Some(place) => {
            files[place].sync();
            Ok(())
        }
        None => Err(StoreError::Missing),
    }
}

pub(super) fn cut_in(files: &mut Vec<MemFile>, name: &str, size: u64) -> Result<(), StoreError>
    requires { size ≤ length (bytes_in (file_in files.old.items name.now)) }
    ensures cuts { Cuts name.now size (file_in files.old.items) (file_in files.new.items)
        (solid_in files.old.items) (solid_in files.new.items) result }
    ensures only { IsOkUnless result StoreError.Missing }
    ensures missing { IsErrOf result StoreError.Missing → file_in files.old.items name.now ≡ None }
{
    match place_of(files, name) {
        Some(place) => {
            files[place].cut(size as usize);
            Ok(())
        }
        None => Err(StoreError::Missing),
    }
}

// Takes away all files of a name.
fn remove_all(files: &mut Vec<MemFile>, name: &str)
    ensures items { files.new.items
        ≡ filter (λ file. not (bytes_eq file.name name.now)) files.old.items }
    ensures len { vec_len files.new ≤ vec_len files.old }
    ensures capacity { vec_capacity files.new ≡ vec_capacity files.old }
{
    files.retain(|file| file.name() != name);
}

pub(super) fn rename_in(
    alloc: Global,
    files: &mut Vec<MemFile>,
    from: &str,
    to: &str,
) -> Result<(), StoreError>
    requires apart { from.now ≢ to.now }
    requires durable { length (bytes_in (file_in files.old.items from.now))
        ≤ solid_in files.old.items from.now }
    ensures renames { Renames from.now to.now (file_in files.old.items) (file_in files.new.items)
        (solid_in files.old.items) (solid_in files.new.items) result }
    ensures failed { result ≢ Err StoreError.Failed }
    ensures missing { IsErrOf result StoreError.Missing → file_in files.old.items from.now ≡ None }
{
    match place_of(files, from) {
        Some(place) => {
            let name = Text::from_str(alloc, to)?;
            files.reserve(1)?;
            let mut file = files.remove(place);
            file.rename(name);
            remove_all(files, from);
            remove_all(files, to);
            files.push(file).unwrap();
            Ok(())
        }
        None => Err(StoreError::Missing),
    }
}
