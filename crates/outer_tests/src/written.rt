use pool_outer::{Store, StoreError};
use pool_store::{DiskStore, LockFile};
use std::alloc::Global;
use std::fs::File;
use std::process::Abort;
use std::rt::Files;
use std::test::Fail;
use std::{fs, io};

const LOG: &str = "outer_store/log";

const NEXT: &str = "outer_store/next";

// What is done to a file.
#[derive(Clone, Copy)]
pub(crate) enum Change {
    Size,
    Append(&'static str),
    Sync,
    Cut(u64),
    Rename(&'static str),
    Remove,
}

pub(crate) const DONE: Result<u64, StoreError> = Ok(0);

const MISSING: Result<u64, StoreError> = Err(StoreError::Missing);

pub(crate) const FAILED: Result<u64, StoreError> = Err(StoreError::Failed);

// A change of a file, and its answer: where it has one, the size.
type Case = (&'static str, Change, Result<u64, StoreError>);

const WRITTEN: &[Case] = &[
    (LOG, Change::Sync, MISSING),
    (LOG, Change::Cut(0), MISSING),
    (LOG, Change::Rename(NEXT), MISSING),
    (LOG, Change::Append("hello"), DONE),
    (LOG, Change::Append(" there"), DONE),
    (LOG, Change::Size, Ok(11)),
    (LOG, Change::Sync, DONE),
    (LOG, Change::Cut(4), DONE),
    (LOG, Change::Size, Ok(4)),
    (LOG, Change::Append("!"), DONE),
    (LOG, Change::Sync, DONE),
    (LOG, Change::Size, Ok(5)),
];

const MOVED: &[Case] = &[
    (NEXT, Change::Append("old"), DONE),
    (LOG, Change::Rename(NEXT), DONE),
    (LOG, Change::Size, MISSING),
    (NEXT, Change::Size, Ok(5)),
    (NEXT, Change::Append("?"), DONE),
    (NEXT, Change::Size, Ok(6)),
];

const REFUSED: &[Case] = &[
    (NEXT, Change::Remove, DONE),
    (NEXT, Change::Append("x"), FAILED),
    (NEXT, Change::Sync, FAILED),
    (NEXT, Change::Cut(0), FAILED),
    (NEXT, Change::Rename(LOG), FAILED),
    ("outer_store/file", Change::Append("x"), DONE),
    ("outer_store/file/log", Change::Append("x"), FAILED),
    ("outer_store/none/log", Change::Append("x"), FAILED),
    ("/dev/full", Change::Append("x"), FAILED),
];

pub(crate) fn answer<R: Files + Drop>(
    rt: &impl Files,
    alloc: Global,
    store: &mut DiskStore<R>,
    name: &str,
    change: Change,
) -> Result<u64, StoreError>
where
    R::File: LockFile,
{
    match change {
        Change::Size => store.size(alloc, name),
        Change::Append(text) => done(store.append(alloc, name, text.as_bytes())),
        Change::Sync => done(store.sync(alloc, name)),
        Change::Cut(size) => done(store.cut(alloc, name, size)),
        Change::Rename(to) if name != to => done(store.rename(alloc, name, to)),
        Change::Rename(_) => DONE,
        Change::Remove => {
            let _ = fs::remove_file(rt, name);
            DONE
        }
    }
}

// The answer of a change that has no size.
fn done(outcome: Result<(), StoreError>) -> Result<u64, StoreError> {
    match outcome {
        Ok(()) => DONE,
        Err(error) => Err(error),
    }
}

fn check<R: Files + Drop>(
    rt: &(impl Files + Abort),
    alloc: Global,
    store: &mut DiskStore<R>,
    cases: &[Case],
)
where
    R::File: LockFile,
{
    for (place, (name, change, want)) in cases.iter().enumerate() {
        let got = answer(rt, alloc, store, name, *change);
        assert_eq!(rt; got, *want, "change {place}, of {name}");
    }
}

pub(crate) fn check_text(
    rt: &(impl Files + Abort),
    alloc: Global,
    name: &str,
    want: &str,
) -> Result<(), Fail> {
    let text = io::read_to_string(alloc, File::open(rt, name)?)?;
    assert_eq!(rt; text.as_str(), want);
    Ok(())
}

fn check_store<R: Files + Drop>(
    rt: &(impl Files + Abort),
    alloc: Global,
    store: &mut DiskStore<R>,
) -> Result<(), Fail>
where
    R::File: LockFile,
{
    check(rt, alloc, store, WRITTEN);
    check_text(rt, alloc, LOG, "hell!")?;
    check(rt, alloc, store, MOVED);
    check_text(rt, alloc, NEXT, "hell!?")?;
    check(rt, alloc, store, REFUSED);
    Ok(())
}

#[test]
fn files_of_the_system_are_written_cut_and_moved(rt: HostRuntime) -> Result<(), Fail> {
    fs::create_dir(&rt, "outer_store")?;
    let mut store = DiskStore::new(rt.alloc(), &rt);
    check_store(&rt, rt.alloc(), &mut store)?;
    fs::remove_dir_all(&rt, "outer_store")?;
    Ok(())
}
