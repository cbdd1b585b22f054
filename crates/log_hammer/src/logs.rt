use anyhow::Result;
use pool_outer::{Clock, SystemClock};
use pool_store::DiskStore;
use queue_log::Log;

/// A log on the disk.
pub(crate) type DiskLog<'a> = Log<DiskStore<&'a HostRuntime>>;

/// The log in a file, as recovery finds it.
pub(crate) fn open_log<'a>(rt: &'a HostRuntime, file: &str) -> Result<DiskLog<'a>> {
    let reading = SystemClock::new(rt).read();
    let store = DiskStore::new(rt.alloc(), rt);
    match Log::recover(rt.alloc(), store, file, reading) {
        Ok(log) => Ok(log),
        Err(refused) => {
            let (_store, error) = refused;
            Err(error.into())
        }
    }
}
