//! The system's advisory lock.

use std::fs::File;
use std::io;

/// An open file that may be locked against other processes.
pub trait LockFile {
    /// Takes the system's advisory lock on the file, until the file is closed. Where another open
    /// of the file has it, that is an error, and nothing is waited for. Computes in O(1).
    fn take_lock(&self) -> io::Result<()>;
}

impl LockFile for File {
    fn take_lock(&self) -> io::Result<()> {
        Ok(self.try_lock()?)
    }
}
