//! Files in memory.
mod failing;
mod file;
mod files;
mod sure;

pub use failing::MemStore;
pub use file::MemFile;
pub use sure::SureStore;
