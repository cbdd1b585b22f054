//! Files of the system, with a record of the calls that change them.

use pool_store::LockFile;
use std::alloc::{Allocator, Global};
use std::cell::{Cell, RefCell};
use std::fs::{File, Metadata, OpenFile, OpenOptions};
use std::io::{ErrorKind, Read, Seek, SeekFrom, Write};
use std::rt::Files;
use std::{fs, io};

// The folder to which the names in a record are relative.
pub(crate) const FOLDER: &str = "outer_calls";

// The calls so far, each ended by a semicolon, and what the next ones are to do.
#[derive(Drop)]
pub(crate) struct Record {
    alloc: Global,
    calls: RefCell<String>,
    // The call that fails, the first time that it is made.
    fails: Cell<&'static str>,
    // The most bytes that one write takes.
    most: Cell<usize>,
    // The file that another process moves over one that is locked, just before that.
    mover: Cell<&'static str>,
}

impl Record {
    pub(crate) fn new(alloc: Global) -> Record {
        Record {
            alloc,
            calls: RefCell::new(String::new(alloc)),
            fails: Cell::new(""),
            most: Cell::new(usize::MAX),
            mover: Cell::new(""),
        }
    }

    pub(crate) fn fail_once(&self, call: &'static str) {
        self.fails.set(call);
    }

    pub(crate) fn write_at_most(&self, count: usize) {
        self.most.set(count);
    }

    pub(crate) fn move_before_lock(&self, file: &'static str) {
        self.mover.set(file);
    }

    // The calls since the last time.
    pub(crate) fn take(&self) -> String {
        match self.calls.try_replace(String::new(self.alloc)) {
            Ok(calls) => calls,
            Err(empty) => empty,
        }
    }

    fn note(&self, call: String) -> io::Result<()> {
        let mut calls = self.calls.try_borrow_mut()?;
        calls.push_str(call.as_str())?;
        calls.push_str("; ")?;
        if call.as_str() == self.fails.get() {
            self.fails.set("");
            return Err(io::Error::from(ErrorKind::Other));
        }
        Ok(())
    }
}

#[derive(Drop)]
pub(crate) struct RecordedFiles<'a> {
    pub(crate) rt: &'a HostRuntime,
    pub(crate) record: &'a Record,
}

// An open file, and the name by which it was opened.
pub(crate) struct RecordedFile<'a> {
    file: File,
    name: String,
    rt: &'a HostRuntime,
    record: &'a Record,
}

fn name_in_folder(path: &str) -> &str {
    match path.strip_prefix(FOLDER) {
        Some("") => ".",
        Some(rest) => rest.strip_prefix('/').unwrap_or(path),
        None => path,
    }
}

impl<'a> Files for RecordedFiles<'a> {
    type File = RecordedFile<'a>;

    type Dir = <HostRuntime as Files>::Dir;

    fn open_file(&self, how: &OpenOptions, path: &str) -> io::Result<RecordedFile<'a>> {
        let record = self.record;
        let name = format!(in record.alloc; "{}", name_in_folder(path))?;
        record.note(format!(in record.alloc; "open {name}")?)?;
        let file = how.open(self.rt, path)?;
        Ok(RecordedFile {
            file,
            name,
            rt: self.rt,
            record,
        })
    }

    fn rename(&self, from: &str, to: &str) -> io::Result<()> {
        let (source, target) = (name_in_folder(from), name_in_folder(to));
        self.record
            .note(format!(in self.record.alloc; "rename {source} {target}")?)?;
        fs::rename(self.rt, from, to)
    }

    fn metadata(&self, path: &str) -> io::Result<Metadata> {
        fs::metadata(self.rt, path)
    }

    fn symlink_metadata(&self, path: &str) -> io::Result<Metadata> {
        fs::symlink_metadata(self.rt, path)
    }

    fn open_dir(&self, path: &str) -> io::Result<<HostRuntime as Files>::Dir> {
        self.rt.open_dir(path)
    }

    fn copy(&self, _from: &str, _to: &str) -> io::Result<u64> {
        unsupported()
    }

    fn remove_file(&self, _path: &str) -> io::Result<()> {
        unsupported()
    }

    fn create_dir(&self, _path: &str) -> io::Result<()> {
        unsupported()
    }

    fn remove_dir(&self, _path: &str) -> io::Result<()> {
        unsupported()
    }

    fn remove_dir_all<B: Allocator>(&self, _alloc: B, _path: &str) -> io::Result<()> {
        unsupported()
    }
}

fn unsupported<T: Drop>() -> io::Result<T> {
    Err(io::Error::from(ErrorKind::Unsupported))
}

impl RecordedFile<'_> {
    fn note(&self, call: &str) -> io::Result<()> {
        let record = self.record;
        record.note(format!(in record.alloc; "{call} {}", self.name)?)
    }

    fn note_count(&self, call: &str, count: u64) -> io::Result<()> {
        let record = self.record;
        record.note(format!(in record.alloc; "{call} {} {count}", self.name)?)
    }
}

impl Drop for RecordedFile<'_> {
    fn drop(self) {
        let _ = self.note("close");
        let RecordedFile {
            file: _file,
            name: _name,
            rt: _,
            record: _,
        } = self;
    }
}

impl Read for RecordedFile<'_> {
    fn read(&mut self, buf: &mut [u8]) -> io::Result<usize> {
        self.file.read(buf)
    }
}

impl Write for RecordedFile<'_> {
    fn write(&mut self, bytes: &[u8]) -> io::Result<usize> {
        let most = self.record.most.get().min(bytes.len());
        let count = self.file.write(&bytes[..most])?;
        self.note_count("write", count as u64)?;
        Ok(count)
    }

    fn flush(&mut self) -> io::Result<()> {
        Ok(())
    }
}

impl Seek for RecordedFile<'_> {
    fn seek(&mut self, to: SeekFrom) -> io::Result<u64> {
        self.file.seek(to)
    }
}

impl OpenFile for RecordedFile<'_> {
    fn metadata(&self) -> io::Result<Metadata> {
        self.file.metadata()
    }

    fn set_len(&self, size: u64) -> io::Result<()> {
        self.note_count("cut", size)?;
        self.file.set_len(size)
    }

    fn sync_all(&self) -> io::Result<()> {
        self.note("sync")?;
        self.file.sync_all()
    }

    fn sync_data(&self) -> io::Result<()> {
        unsupported()
    }
}

impl LockFile for RecordedFile<'_> {
    fn take_lock(&self) -> io::Result<()> {
        self.note("lock")?;
        let mover = self.record.mover.replace("");
        if !mover.is_empty() {
            let target = format!(in self.record.alloc; "{FOLDER}/{}", self.name)?;
            fs::rename(self.rt, mover, target)?;
        }
        self.file.take_lock()
    }
}
