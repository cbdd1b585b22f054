//! Open files of the system, each of which stays open.
ghost use Rattle.std.specs.Prelude.{◌<◌, ◌≤◌, IfOk, IfSome, length, vec_len};

use crate::disk::lock::LockFile;
use std::fs::{Metadata, OpenFile, OpenOptions};
use std::io::ErrorKind;
use std::os::unix::fs::MetadataExt;
use std::rt::Files;
use std::{fs, io};

/// An open file, and which file of the system it is.
#[derive(Drop)]
pub(super) struct Opened<F> {
    pub(super) file: F,
    device: u64,
    node: u64,
    // Whether its name in the folder may be lost.
    pub(super) folder_is_due: bool,
    // Whether a stop may lose bytes, or the name, though a later sync succeeds.
    pub(super) has_failed: bool,
}

impl<F: OpenFile + Drop> Opened<F> {
    fn is(&self, data: &Metadata) -> bool {
        data.dev() == self.device && data.ino() == self.node
    }

    /// Refuses a file of which a sync has failed: the system may have dropped the bytes that it
    /// could not write, and then says so only once.
    pub(super) fn check(&self) -> io::Result<()> {
        if self.has_failed {
            return Err(io::Error::from(ErrorKind::Other));
        }
        Ok(())
    }

    /// Makes the file durable.
    pub(super) fn sync(&mut self) -> io::Result<()> {
        self.check()?;
        self.has_failed = true;
        self.file.sync_all()?;
        self.has_failed = false;
        Ok(())
    }
}

/// The place of the file of that name, which is opened and locked where it wasn't yet.
pub(super) fn place_of<R: Files>(
    rt: &R,
    files: &mut Vec<Opened<R::File>>,
    name: &str,
    how: &OpenOptions,
) -> io::Result<usize>
where
    R::File: LockFile,
    ensures longer { vec_len files.old ≤ vec_len files.new }
    ensures found { IfOk result (λ place. place < vec_len files.new) }
{
    match fs::metadata(rt, name) {
        Ok(data) => match place_at(files, &data) {
            Some(place) => Ok(place),
            None => open_at_end(rt, files, name, how),
        },
        Err(error) if error.kind() == ErrorKind::NotFound => open_at_end(rt, files, name, how),
        Err(error) => Err(error),
    }
}

fn place_at<F: OpenFile + Drop>(files: &[Opened<F>], data: &Metadata) -> Option<usize>
    ensures { IfSome result (λ place. place < length files.now) }
{
    files.iter().position(|opened| opened.is(data))
}

fn open_at_end<R: Files>(
    rt: &R,
    files: &mut Vec<Opened<R::File>>,
    name: &str,
    how: &OpenOptions,
) -> io::Result<usize>
where
    R::File: LockFile,
    ensures longer { vec_len files.old ≤ vec_len files.new }
    ensures found { IfOk result (λ place. place < vec_len files.new) }
{
    files.reserve(1)?;
    let opened = open(rt, name, how)?;
    let place = files.len();
    files.push(opened).unwrap();
    Ok(place)
}

// What isn't a regular file, as a folder or a device, needs no lock.
fn open<R: Files>(rt: &R, name: &str, how: &OpenOptions) -> io::Result<Opened<R::File>>
where
    R::File: LockFile,
{
    let file = how.open(rt, name)?;
    let data = file.metadata()?;
    if data.is_file() {
        file.take_lock()?;
    }
    let opened = Opened {
        file,
        device: data.dev(),
        node: data.ino(),
        folder_is_due: true,
        has_failed: false,
    };
    // Before the lock was taken, another process may have put another file in its place.
    if !opened.is(&fs::metadata(rt, name)?) {
        return Err(io::Error::from(ErrorKind::WouldBlock));
    }
    Ok(opened)
}
