use pool_outer::{Store, StoreError};
use pool_store::DiskStore;
use std::alloc::Global;
use std::fs;
use std::process::Abort;
use std::rt::Files;
use std::test::Fail;

// What one read of at most three bytes gives: their count, and the buffer.
fn read<D: Store>(
    store: &mut D,
    alloc: Global,
    name: &str,
    place: u64,
) -> Result<(usize, [u8; 3]), StoreError> {
    let mut buffer = *b"...";
    let count = store.read_at(alloc, name, place, &mut buffer)?;
    Ok((count, buffer))
}

// Asks for the size of a file, and then for at most three bytes of it from a place on.
fn check<D: Store>(
    rt: &impl Abort,
    alloc: Global,
    store: &mut D,
    name: &str,
    size: Result<u64, StoreError>,
    (place, piece): (u64, Result<(usize, [u8; 3]), StoreError>),
) {
    assert_eq!(rt; store.size(alloc, name), size, "{name}");
    assert_eq!(rt;
        read(store, alloc, name, place),
        piece,
        "{name} from {place}"
    );
}

const MISSING: StoreError = StoreError::Missing;

const FAILED: StoreError = StoreError::Failed;

fn check_file<D: Store>(
    rt: &(impl Files + Abort),
    alloc: Global,
    store: &mut D,
) -> Result<(), Fail> {
    let name = "outer_file";
    check(rt, alloc, store, name, Err(MISSING), (0, Err(MISSING)));
    fs::write(rt, name, "hello")?;
    check(rt, alloc, store, name, Ok(5), (1, Ok((3, *b"ell"))));
    check(rt, alloc, store, name, Ok(5), (5, Ok((0, *b"..."))));
    fs::remove_file(rt, name)?;
    check(rt, alloc, store, name, Err(FAILED), (0, Err(FAILED)));
    let nowhere = "no such folder/file";
    check(rt, alloc, store, nowhere, Err(MISSING), (0, Err(MISSING)));
    Ok(())
}

#[test]
fn a_file_of_the_system_that_vanished_has_failed(rt: HostRuntime) -> Result<(), Fail> {
    let mut store = DiskStore::new(rt.alloc(), &rt);
    check_file(&rt, rt.alloc(), &mut store)
}
