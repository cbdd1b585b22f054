//! The files that a store has changed.
ghost use Rattle.std.specs.Prelude.{◌≡◌, ◌<◌, ◌≤◌, IfOk, IfSome, vec_len};
ghost use Rattle.std.specs.Option.{ForSome};

use crate::disk::lock::LockFile;
use crate::disk::opened::{Opened, place_of};
use std::alloc::Global;
use std::fs::{OpenFile, OpenOptions};
use std::io::{ErrorKind, Write};
use std::path::Path;
use std::rt::Files;
use std::{fs, io};

/// The files that a store may have changed, each locked, and their folders.
#[derive(Drop)]
pub(super) struct WrittenFiles<F> {
    files: Vec<Opened<F>>,
    folders: Vec<Opened<F>>,
}

impl<F: Write + OpenFile + LockFile + Drop> WrittenFiles<F> {
    pub(super) fn new(alloc: Global) -> WrittenFiles<F> {
        WrittenFiles {
            files: Vec::new(alloc),
            folders: Vec::new(alloc),
        }
    }

    /// Adds bytes at the end of a file. One that isn't there is made where it may be.
    pub(super) fn append<R: Files<File = F>>(
        &mut self,
        rt: &R,
        name: &str,
        may_be_made: bool,
        bytes: &[u8],
    ) -> io::Result<()> {
        let place = self.to_change(rt, name, may_be_made)?;
        self.files[place].file.write_all(bytes)?;
        Ok(())
    }

    /// Makes durable what a read gives of a file.
    pub(super) fn sync<R: Files<File = F>>(&mut self, rt: &R, name: &str) -> io::Result<()> {
        let place = self.to_change(rt, name, false)?;
        self.sync_at(rt, name, place)
    }

    /// Shortens a file, and makes it durable.
    pub(super) fn cut<R: Files<File = F>>(
        &mut self,
        rt: &R,
        name: &str,
        size: u64,
    ) -> io::Result<()> {
        let place = self.to_change(rt, name, false)?;
        self.files[place].file.set_len(size)?;
        self.sync_at(rt, name, place)
    }

    /// Moves a file over another, and makes the folders durable. The file that it replaces is
    /// closed.
    pub(super) fn rename<R: Files<File = F>>(
        &mut self,
        rt: &R,
        from: &str,
        to: &str,
    ) -> io::Result<()> {
        let moved = self.to_change(rt, from, false)?;
        let replaced = self.to_replace(rt, to)?;
        let into = self.folder_to_change(rt, to)?;
        let out_of = self.folder_to_change(rt, from)?;
        fs::rename(rt, from, to)?;
        self.sync_folder(into, moved)?;
        if out_of != into {
            self.sync_folder(out_of, moved)?;
        }
        self.close(replaced, moved);
        Ok(())
    }

    // The place of the file of that name.
    fn to_change<R: Files<File = F>>(
        &mut self,
        rt: &R,
        name: &str,
        may_be_made: bool,
    ) -> io::Result<usize>
        ensures longer { vec_len self.old.files ≤ vec_len self.new.files }
        ensures found { IfOk result (λ place. place < vec_len self.new.files) }
    {
        let mut how = OpenOptions::new();
        how.append(true).create(may_be_made);
        let place = place_of(rt, &mut self.files, name, &how)?;
        self.files[place].check()?;
        Ok(place)
    }

    // The same of a file that may be missing.
    fn to_replace<R: Files<File = F>>(&mut self, rt: &R, name: &str) -> io::Result<Option<usize>>
        ensures longer { vec_len self.old.files ≤ vec_len self.new.files }
        ensures found { IfOk result (λ found.
            IfSome found (λ place. place < vec_len self.new.files)) }
    {
        match fs::metadata(rt, name) {
            Ok(_) => Ok(Some(self.to_change(rt, name, false)?)),
            Err(error) if error.kind() == ErrorKind::NotFound => Ok(None),
            Err(error) => Err(error),
        }
    }

    // The place of the folder of the file of that name.
    fn folder_of<R: Files<File = F>>(&mut self, rt: &R, name: &str) -> io::Result<usize>
        ensures files { self.new.files ≡ self.old.files }
        ensures longer { vec_len self.old.folders ≤ vec_len self.new.folders }
        ensures found { IfOk result (λ place. place < vec_len self.new.folders) }
    {
        let mut how = OpenOptions::new();
        how.read(true);
        place_of(rt, &mut self.folders, folder_name(name), &how)
    }

    // The same, before the names that it has are changed.
    fn folder_to_change<R: Files<File = F>>(&mut self, rt: &R, name: &str) -> io::Result<usize>
        ensures files { self.new.files ≡ self.old.files }
        ensures longer { vec_len self.old.folders ≤ vec_len self.new.folders }
        ensures found { IfOk result (λ place. place < vec_len self.new.folders) }
    {
        let place = self.folder_of(rt, name)?;
        self.folders[place].check()?;
        Ok(place)
    }

    // Makes a file durable, and its name in its folder.
    fn sync_at<R: Files<File = F>>(&mut self, rt: &R, name: &str, place: usize) -> io::Result<()>
        requires { place < vec_len self.old.files }
    {
        self.files[place].sync()?;
        if self.files[place].folder_is_due {
            let folder = self.folder_of(rt, name)?;
            self.sync_folder(folder, place)?;
            self.files[place].folder_is_due = false;
        }
        Ok(())
    }

    // Makes durable which names a folder has. Where that fails, the file has failed too.
    fn sync_folder(&mut self, folder: usize, place: usize) -> io::Result<()>
        requires folder { folder < vec_len self.old.folders }
        requires file { place < vec_len self.old.files }
        ensures folders { vec_len self.new.folders ≡ vec_len self.old.folders }
        ensures files { vec_len self.new.files ≡ vec_len self.old.files }
    {
        self.files[place].has_failed = true;
        self.folders[folder].sync()?;
        self.files[place].has_failed = false;
        Ok(())
    }

    // Closes a file that another one has replaced.
    fn close(&mut self, replaced: Option<usize>, moved: usize)
        requires { ForSome replaced (λ place. place < vec_len self.old.files) }
    {
        match replaced {
            Some(place) if place != moved => {
                let _ = self.files.swap_remove(place);
            }
            _ => {}
        }
    }
}

fn folder_name(name: &str) -> &str {
    match Path::new(name).parent() {
        Some(folder) if !folder.as_str().is_empty() => folder.as_str(),
        _ => ".",
    }
}
