use pool_outer::{Store, StoreError};
use pool_store::MemStore;
use std::alloc::Global;
use std::process::Abort;
use std::test::Fail;

const NAME: &str = "log";

// Two bytes are written and synced, and then three more.
const ALL: &[u8] = b"abcde";

// The lengths of the shortest and the longest image, where the store stops once so many bytes were
// written. The sync comes after the second byte.
const IMAGES: &[(u64, usize, usize)] = &[
    (0, 0, 0),
    (1, 0, 1),
    (2, 0, 2),
    (3, 2, 3),
    (4, 2, 4),
    (5, 2, 5),
];

fn write(alloc: Global, store: &mut MemStore) -> Result<(), StoreError> {
    store.append(alloc, NAME, b"ab")?;
    store.sync(alloc, NAME)?;
    store.append(alloc, NAME, b"cde")
}

fn check_images(rt: &impl Abort, store: &MemStore, stop: u64, least: usize, most: usize) {
    for length in 0..=ALL.len() {
        let is_image = store.files().is_image(NAME, &ALL[..length]);
        let want = least <= length && length <= most;
        assert_eq!(rt; is_image, want, "{length} bytes at {stop}");
    }
    for other in [b"b", b"A"] {
        assert!(rt; !store.files().is_image(NAME, other), "{other:?} at {stop}");
    }
}

#[test]
fn a_stopped_store_leaves_its_solid_bytes_and_a_prefix_of_the_rest(
    rt: HostRuntime,
) -> Result<(), Fail> {
    let alloc = rt.alloc();
    for (stop, least, most) in IMAGES {
        let mut store = MemStore::new(Vec::new(alloc), Vec::new(alloc));
        store.stop_after(*stop);
        let _ = write(alloc, &mut store);
        assert_eq!(rt; store.size(alloc, NAME), Err(StoreError::Failed), "{stop}");
        check_images(&rt, &store, *stop, *least, *most);
    }
    Ok(())
}
