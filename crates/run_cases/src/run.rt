ghost use Rattle.std.specs.Prelude.{◌≡◌, All, length};

use crate::case::RunCase;
use crate::parts::{clock_of, sink_of, spawners_of, store_of, words_of};
use crate::status::write_status;
use cases::{CaseError, escape};
use pool_master::{MACHINES, Ran, Status, run_pool};
use pool_outer::{MemClock, MemSink, MemSpawner, OpenGate, Spawner};
use pool_store::MemStore;
use std::alloc::Global;
use std::rt::Clock;
use std::str::from_utf8;
use std::sync::Wait;
use std::thread::Threads;

/// Appends the status' number, its line on standard error, and what was written.
pub(crate) fn answer_run<R: Threads + Wait + Sync + Clock>(
    rt: &R,
    alloc: Global,
    run: &RunCase<'_>,
    out: &mut String,
) -> Result<(), CaseError> {
    let words = words_of(alloc, run)?;
    let mut sink = sink_of(alloc, run)?;
    answer_words(rt, alloc, run, words.as_slice(), &mut sink, out)
}

fn answer_words<R: Threads + Wait + Sync + Clock>(
    rt: &R,
    alloc: Global,
    run: &RunCase<'_>,
    words: &[String],
    sink: &mut MemSink,
    out: &mut String,
) -> Result<(), CaseError> {
    answer_status(rt, alloc, run, words, sink, out)?;
    out.push('\t')?;
    write_bytes(sink.bytes(), out)
}

fn write_bytes(bytes: &[u8], out: &mut String) -> Result<(), CaseError> {
    match from_utf8(bytes) {
        Ok(text) => Ok(escape(text, out)?),
        Err(_) => Ok(out.push_str("no text")?),
    }
}

fn answer_status<R: Threads + Wait + Sync + Clock>(
    rt: &R,
    alloc: Global,
    run: &RunCase<'_>,
    words: &[String],
    sink: &mut MemSink,
    out: &mut String,
) -> Result<(), CaseError> {
    let clock = clock_of(alloc, run)?;
    let status = status_of(rt, alloc, run, words, &clock, sink)?;
    write_status(alloc, &status, out)
}

fn status_of<R: Threads + Wait + Sync + Clock>(
    rt: &R,
    alloc: Global,
    run: &RunCase<'_>,
    words: &[String],
    clock: &MemClock,
    sink: &mut MemSink,
) -> Result<Status, CaseError> {
    let spawners = spawners_of(alloc, run)?;
    let store = store_of(alloc, run)?;
    Ok(run_on(rt, alloc, words, store, clock, spawners, sink))
}

fn run_on<R: Threads + Wait + Sync + Clock>(
    rt: &R,
    alloc: Global,
    words: &[String],
    store: MemStore,
    clock: &MemClock,
    spawners: Vec<MemSpawner>,
    sink: &mut MemSink,
) -> Status
    requires machines { length spawners.items ≡ MACHINES }
    requires idle { All (λ s. ⟦<MemSpawner as Spawner>⟧.count s ≡ 0) spawners.items }
{
    let Ran {
        status,
        store: _,
        spawners: _,
        history: _,
        refused: _,
    } = run_pool(rt, alloc, words, store, clock, spawners, &OpenGate, 0, sink);
    status
}
