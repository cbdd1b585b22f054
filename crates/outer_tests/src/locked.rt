use crate::spawner::{Start, empty_launch, end_from, fill};
use crate::written::{Change, DONE, FAILED, answer};
use pool_outer::{ChildSpawner, ChildState, SpawnError, Spawner, StoreError};
use pool_store::{DiskStore, LockFile};
use std::alloc::Global;
use std::process::Abort;
use std::rt::{Clock, Files};
use std::test::Fail;
use std::time::Duration;
use std::{fs, thread};

const FOLDER: &str = "outer_locked";

const LOG: &str = "outer_locked/log";

const NEXT: &str = "outer_locked/next";

const READY: &str = "outer_locked/ready";

// A shell that takes the log's lock, says so by a file, and keeps the lock for longer than a test
// takes.
const HOLDER: &str = "-c|exec 9>>outer_locked/log; flock 9; : > outer_locked/ready; exec sleep 100";

fn shell(words: &str) -> Start<'_> {
    Start {
        program: "/bin/sh",
        words,
        folder: "",
        input: "",
        output: "",
        errors: "",
    }
}

fn wait_for(rt: &(impl Files + Clock), name: &str) {
    for _look in 0..5000 {
        if fs::metadata(rt, name).is_ok() {
            return;
        }
        thread::sleep(rt, Duration::from_millis(2));
    }
}

type Case = (&'static str, Change, Result<u64, StoreError>);

const REFUSED: &[Case] = &[
    (LOG, Change::Append("hello"), FAILED),
    (LOG, Change::Sync, FAILED),
    (LOG, Change::Cut(0), FAILED),
    (LOG, Change::Rename(NEXT), FAILED),
    (LOG, Change::Size, DONE),
];

const WRITTEN: &[Case] = &[(LOG, Change::Append("hello"), DONE)];

const MOVED: &[Case] = &[(LOG, Change::Rename(NEXT), DONE)];

fn check<R: Files + Drop>(
    rt: &(impl Files + Abort),
    alloc: Global,
    store: &mut DiskStore<R>,
    cases: &[Case],
)
where
    R::File: LockFile,
{
    for (name, change, want) in cases {
        assert_eq!(rt; answer(rt, alloc, store, name, *change), *want, "{name}");
    }
}

// A store changes nothing while a child has the lock, which is killed then.
fn check_refused<R: Files + Drop, P: Spawner>(
    rt: &(impl Files + Clock + Abort),
    alloc: Global,
    store: &mut DiskStore<R>,
    spawner: &mut P,
) -> Result<(), SpawnError>
where
    R::File: LockFile,
{
    let mut what = empty_launch(alloc);
    if fill(alloc, &mut what, shell(HOLDER)).is_err() {
        return Err(SpawnError::Memory);
    }
    let child = spawner.launch(alloc, &what)?;
    wait_for(rt, READY);
    check(rt, alloc, store, REFUSED);
    spawner.kill(child)
}

// How a child ends that takes a file's lock.
fn check_child<P: Spawner>(
    rt: &(impl Clock + Abort),
    alloc: Global,
    spawner: &mut P,
    words: &str,
    status: i32,
) {
    let got = end_from(rt, alloc, spawner, shell(words), false);
    assert_eq!(rt; got, Ok(ChildState::Exited(status)), "{words}");
}

#[test]
fn one_process_at_a_time_changes_a_file(rt: HostRuntime) -> Result<(), Fail> {
    let alloc = rt.alloc();
    fs::create_dir(&rt, FOLDER)?;
    let mut store = DiskStore::new(alloc, &rt);
    let mut spawner = ChildSpawner::new(alloc, &rt);
    assert_eq!(rt; check_refused(&rt, alloc, &mut store, &mut spawner), Ok(()));
    check_child(
        &rt,
        alloc,
        &mut spawner,
        "-c|flock -w 30 outer_locked/log true",
        0,
    );
    check(&rt, alloc, &mut store, WRITTEN);
    check_child(
        &rt,
        alloc,
        &mut spawner,
        "-c|flock -n outer_locked/log true",
        1,
    );
    check(&rt, alloc, &mut store, MOVED);
    check_child(
        &rt,
        alloc,
        &mut spawner,
        "-c|flock -n outer_locked/next true",
        1,
    );
    drop(store);
    check_child(
        &rt,
        alloc,
        &mut spawner,
        "-c|flock -n outer_locked/next true",
        0,
    );
    fs::remove_dir_all(&rt, FOLDER)?;
    Ok(())
}
