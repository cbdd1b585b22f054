use pool_outer::{ChildSpawner, MemClock, MemSpawner, OpenGate, SureSpawner, SystemClock};
use pool_store::{DiskStore, MemStore, SureStore};

// What threads may take.
fn moves<T: Send>() {}

// What threads may share.
fn shares<T: Sync>() {}

#[test]
fn threads_take_stores_and_spawners_and_share_clocks_and_gates() {
    moves::<SureStore>();
    moves::<MemStore>();
    moves::<DiskStore<&HostRuntime>>();
    moves::<SureSpawner>();
    moves::<MemSpawner>();
    moves::<ChildSpawner<&HostRuntime>>();
    shares::<MemClock>();
    shares::<SystemClock<&HostRuntime>>();
    shares::<OpenGate>();
}
