use crate::recorded::{FOLDER, Record, RecordedFiles};
use crate::written::{Change, DONE, FAILED, answer, check_text};
use pool_outer::StoreError;
use pool_store::{DiskStore, LockFile};
use std::alloc::Global;
use std::fs;
use std::process::Abort;
use std::rt::Files;
use std::test::Fail;

const LOG: &str = "outer_calls/log";

const NEXT: &str = "outer_calls/next";

const OTHER: &str = "outer_calls/other";

const MOVED: &str = "outer_calls/apart/moved";

// A change of a file, its answer, and the calls of the system that it makes.
type Case = (&'static str, Change, Result<u64, StoreError>, &'static str);

// A file that is made, and two that were there.
const WRITTEN: &[Case] = &[
    (
        LOG,
        Change::Append("hello"),
        DONE,
        "open log; lock log; write log 5; ",
    ),
    (LOG, Change::Sync, DONE, "sync log; open .; sync .; "),
    (LOG, Change::Append(" there"), DONE, "write log 6; "),
    (LOG, Change::Sync, DONE, "sync log; "),
    (LOG, Change::Cut(4), DONE, "cut log 4; sync log; "),
    (
        NEXT,
        Change::Cut(2),
        DONE,
        "open next; lock next; cut next 2; sync next; sync .; ",
    ),
    (NEXT, Change::Sync, DONE, "sync next; "),
];

// What was locked by one name has its lock by the other.
const RENAMED: &[Case] = &[
    (
        LOG,
        Change::Rename(NEXT),
        DONE,
        "rename log next; sync .; close next; ",
    ),
    (NEXT, Change::Append("!"), DONE, "write log 1; "),
    (NEXT, Change::Sync, DONE, "sync log; "),
    (
        NEXT,
        Change::Rename(MOVED),
        DONE,
        "open apart; rename next apart/moved; sync apart; sync .; ",
    ),
    (MOVED, Change::Cut(1), DONE, "cut log 1; sync log; "),
];

// Both files are locked before one takes the other's place, which is closed then.
const REPLACED: &[Case] = &[(
    LOG,
    Change::Rename(NEXT),
    DONE,
    "open log; lock log; open next; lock next; open .; rename log next; sync .; close next; ",
)];

// The system takes two bytes at a time.
const SHORT: &[Case] = &[(
    NEXT,
    Change::Append("bytes"),
    DONE,
    "write log 2; write log 2; write log 1; ",
)];

// The lock that another process has, and the calls that come to it.
const LOCKED: &[(&str, Case)] = &[
    (
        "lock log",
        (
            LOG,
            Change::Append("x"),
            FAILED,
            "open log; lock log; close log; ",
        ),
    ),
    (
        "lock log",
        (LOG, Change::Sync, FAILED, "open log; lock log; close log; "),
    ),
    (
        "lock log",
        (
            LOG,
            Change::Cut(0),
            FAILED,
            "open log; lock log; close log; ",
        ),
    ),
    (
        "lock log",
        (
            LOG,
            Change::Rename(NEXT),
            FAILED,
            "open log; lock log; close log; ",
        ),
    ),
    (
        "lock next",
        (
            LOG,
            Change::Rename(NEXT),
            FAILED,
            "open log; lock log; open next; lock next; close next; ",
        ),
    ),
];

// A file that isn't there any more once it is locked, and then the one in its place.
const MOVED_AWAY: &[Case] = &[
    (
        LOG,
        Change::Append("x"),
        FAILED,
        "open log; lock log; close log; ",
    ),
    (
        LOG,
        Change::Append("x"),
        DONE,
        "open log; lock log; write log 1; ",
    ),
];

const FOLDER_SYNC: &str = "sync .";

// The sync that fails, and the calls that come to it. Each leaves six bytes in the log.
const FAILING: &[(&str, &[Case])] = &[
    (
        "sync log",
        &[
            (
                LOG,
                Change::Append("x"),
                DONE,
                "open log; lock log; write log 1; ",
            ),
            (LOG, Change::Sync, FAILED, "sync log; "),
        ],
    ),
    (
        "sync log",
        &[(
            LOG,
            Change::Cut(6),
            FAILED,
            "open log; lock log; cut log 6; sync log; ",
        )],
    ),
    (
        FOLDER_SYNC,
        &[(
            LOG,
            Change::Cut(6),
            FAILED,
            "open log; lock log; cut log 6; sync log; open .; sync .; ",
        )],
    ),
    (
        FOLDER_SYNC,
        &[(
            NEXT,
            Change::Rename(LOG),
            FAILED,
            "open next; lock next; open log; lock log; open .; rename next log; sync .; ",
        )],
    ),
];

// Nothing is done to a failed file, though the next sync would succeed, nor to one that would take
// its place.
const FAILED_FILE: &[Case] = &[
    (LOG, Change::Append("y"), FAILED, ""),
    (LOG, Change::Sync, FAILED, ""),
    (LOG, Change::Cut(0), FAILED, ""),
    (LOG, Change::Rename(MOVED), FAILED, ""),
    (
        OTHER,
        Change::Rename(LOG),
        FAILED,
        "open other; lock other; ",
    ),
    (LOG, Change::Size, Ok(6), ""),
];

// The same once another has moved it.
const MOVED_FILE: &[Case] = &[
    (MOVED, Change::Append("y"), FAILED, ""),
    (MOVED, Change::Sync, FAILED, ""),
    (MOVED, Change::Cut(0), FAILED, ""),
    (MOVED, Change::Rename(LOG), FAILED, ""),
    (MOVED, Change::Size, Ok(6), ""),
];

// In a folder whose sync failed no name is moved or made durable.
const FAILED_FOLDER: &[Case] = &[
    (
        OTHER,
        Change::Rename(MOVED),
        FAILED,
        "open other; lock other; open apart; ",
    ),
    (OTHER, Change::Append("y"), DONE, "write other 1; "),
    (OTHER, Change::Sync, FAILED, "sync other; "),
    (OTHER, Change::Append("y"), FAILED, ""),
];

fn check<R: Files + Drop>(
    rt: &(impl Files + Abort),
    alloc: Global,
    store: &mut DiskStore<R>,
    record: &Record,
    cases: &[Case],
)
where
    R::File: LockFile,
{
    for (place, (name, change, want, calls)) in cases.iter().enumerate() {
        let got = answer(rt, alloc, store, name, *change);
        let made = record.take();
        assert_eq!(rt; got, *want, "change {place}, of {name}");
        assert_eq!(rt; made.as_str(), *calls, "change {place}, of {name}");
    }
}

// A folder with a log and two files.
fn make_folder<R: Files>(rt: &R, alloc: Global) -> Result<(), Fail> {
    if fs::exists(rt, FOLDER)? {
        rt.remove_dir_all(alloc, FOLDER)?;
    }
    fs::create_dir(rt, FOLDER)?;
    fs::create_dir(rt, "outer_calls/apart")?;
    fs::write(rt, LOG, "first")?;
    fs::write(rt, NEXT, "second")?;
    fs::write(rt, OTHER, "third")?;
    Ok(())
}

fn store_of<'a>(rt: &'a HostRuntime, record: &'a Record) -> DiskStore<RecordedFiles<'a>> {
    DiskStore::new(rt.alloc(), RecordedFiles { rt, record })
}

fn check_written(rt: &(impl Files + Abort), system: &HostRuntime) -> Result<(), Fail> {
    let alloc = system.alloc();
    make_folder(rt, alloc)?;
    fs::remove_file(rt, LOG)?;
    let record = Record::new(alloc);
    let mut store = store_of(system, &record);
    check(rt, alloc, &mut store, &record, WRITTEN);
    check(rt, alloc, &mut store, &record, RENAMED);
    Ok(())
}

fn check_replaced(rt: &(impl Files + Abort), system: &HostRuntime) -> Result<(), Fail> {
    let alloc = system.alloc();
    make_folder(rt, alloc)?;
    let record = Record::new(alloc);
    let mut store = store_of(system, &record);
    check(rt, alloc, &mut store, &record, REPLACED);
    record.write_at_most(2);
    check(rt, alloc, &mut store, &record, SHORT);
    check_text(rt, alloc, NEXT, "firstbytes")
}

fn check_locked(
    rt: &(impl Files + Abort),
    system: &HostRuntime,
    lock: &'static str,
    case: Case,
) -> Result<(), Fail> {
    let alloc = system.alloc();
    make_folder(rt, alloc)?;
    let record = Record::new(alloc);
    let mut store = store_of(system, &record);
    record.fail_once(lock);
    check(rt, alloc, &mut store, &record, &[case]);
    check_text(rt, alloc, LOG, "first")?;
    check_text(rt, alloc, NEXT, "second")
}

fn check_failing(
    rt: &(impl Files + Abort),
    system: &HostRuntime,
    sync: &'static str,
    cases: &[Case],
    later: &[Case],
) -> Result<(), Fail> {
    let alloc = system.alloc();
    make_folder(rt, alloc)?;
    let record = Record::new(alloc);
    let mut store = store_of(system, &record);
    record.fail_once(sync);
    check(rt, alloc, &mut store, &record, cases);
    check(rt, alloc, &mut store, &record, later);
    if fs::exists(rt, LOG)? {
        fs::rename(rt, LOG, MOVED)?;
    }
    check(rt, alloc, &mut store, &record, MOVED_FILE);
    Ok(())
}

#[test]
fn what_is_written_is_synced_once_and_so_is_its_folder(rt: HostRuntime) -> Result<(), Fail> {
    check_written(&rt, &rt)?;
    check_replaced(&rt, &rt)?;
    fs::remove_dir_all(&rt, FOLDER)?;
    Ok(())
}

// Another process moves a file over the log before the log is locked.
fn check_moved_away(rt: &(impl Files + Abort), system: &HostRuntime) -> Result<(), Fail> {
    let alloc = system.alloc();
    make_folder(rt, alloc)?;
    let record = Record::new(alloc);
    let mut store = store_of(system, &record);
    record.move_before_lock(NEXT);
    check(rt, alloc, &mut store, &record, MOVED_AWAY);
    check_text(rt, alloc, LOG, "secondx")
}

#[test]
fn nothing_is_written_before_the_lock_is_taken(rt: HostRuntime) -> Result<(), Fail> {
    for (lock, case) in LOCKED {
        check_locked(&rt, &rt, lock, *case)?;
    }
    check_moved_away(&rt, &rt)?;
    fs::remove_dir_all(&rt, FOLDER)?;
    Ok(())
}

#[test]
fn a_file_whose_sync_failed_is_failed_from_then_on(rt: HostRuntime) -> Result<(), Fail> {
    for (sync, cases) in FAILING {
        check_failing(&rt, &rt, sync, cases, FAILED_FILE)?;
        if *sync == FOLDER_SYNC {
            check_failing(&rt, &rt, sync, cases, FAILED_FOLDER)?;
        }
    }
    fs::remove_dir_all(&rt, FOLDER)?;
    Ok(())
}
