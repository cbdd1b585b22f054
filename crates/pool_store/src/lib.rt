//! Stores: files in memory, of which a test knows every image that a stop may leave, and files of
//! the system. Changes of one file of a store that are solid once they are answered by `Ok`.
//!
//! The file of boots: the numbers of a pool's boots, one a line; and its opening in a store.
#![tactic(auto)]

mod append;
mod boots;
mod cut;
mod disk;
mod error;
pub mod laws;
mod line;
mod memory;
mod opening;
mod read;

pub use append::append_solid;
pub use boots::{Boots, LAST_BOOT, read_boots};
pub use cut::cut_after;
pub use disk::{DiskStore, LockFile};
pub use error::{BootError, OpenBootsError};
pub use line::boot_line;
pub use memory::{MemFile, MemStore, SureStore};
pub use opening::open_boots;
