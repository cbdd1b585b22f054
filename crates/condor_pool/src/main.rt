//! `condor_pool`: runs a pool on the system's files, clock and programs.
#![tactic(auto)]

ghost use Rattle.std.specs.Prelude.{◌≡◌, ◌⊎◌, ◌↔◌, All, length};
ghost use Rattle.pool_input.specs.declared.status.Status.{Status};
ghost use Rattle.pool_input.specs.Words.{IsNoRun, texts};

use pool_input::{lone_question, print_answer};
use pool_master::{MACHINES, Ran, Status, idle_spawners, run_pool};
use pool_outer::{OpenGate, Spawner, StdSink, SystemClock};
use pool_store::DiskStore;
use std::alloc::{AllocError, Global};
use std::process::{ExitCode, id};
use std::random::RandomSource;
use std::rt::Clock;
use std::sync::Wait;
use std::thread::Threads;
use std::{env, io};

fn main(rt: HostRuntime) -> ExitCode {
    let alloc = rt.alloc();
    let status = match words(&rt) {
        Ok(words) => match lone_question(words.as_slice()) {
            Some(question) => print_answer(&rt, alloc, question),
            None => run(&rt, &rt, alloc, words.as_slice()),
        },
        Err(error) => Status::of_unread_words(&error),
    };
    print_line(&rt, alloc, &status);
    ExitCode::from(status.number())
}

// Runs a pool on the parts of the system. The first handle may wait. That the words are malformed
// is said, unless memory runs out before.
fn run<R: Threads + Wait + Sync + Clock>(
    rt: &R,
    system: &HostRuntime,
    alloc: Global,
    words: &[String],
) -> Status
    ensures usage { result ≡ Status.Usage → IsNoRun (texts words.now) }
    ensures no_run { IsNoRun (texts words.now)
        → (result ≡ Status.Usage) ⊎ (result ≡ Status.Memory) }
{
    match idle_spawners(alloc, system) {
        Ok(idle) => run_on(rt, system, alloc, words, idle),
        Err(AllocError) => Status::Memory,
    }
}

// With a spawner for each machine.
fn run_on<R: Threads + Wait + Sync + Clock, P: Spawner + Send>(
    rt: &R,
    system: &HostRuntime,
    alloc: Global,
    words: &[String],
    spawners: Vec<P>,
) -> Status
    requires machines { length spawners.items ≡ MACHINES }
    requires idle { All (λ s. P.count s ≡ 0) spawners.items }
    ensures { result ≡ Status.Usage ↔ IsNoRun (texts words.now) }
{
    let clock = SystemClock::new(system);
    let mut out = StdSink::new(io::writer(system));
    let Ran {
        status,
        store: _,
        spawners: _,
        history: _,
        refused: _,
    } = run_pool(
        rt,
        alloc,
        words,
        DiskStore::new(alloc, system),
        &clock,
        spawners,
        &OpenGate,
        secret_key(system),
        &mut out,
    );
    status
}

// Prints the line of a status; one that cannot be made or printed leaves the status as it is.
fn print_line(rt: &impl Eprint, alloc: Global, status: &Status) {
    if let Ok(line) = status.line(alloc)
        && !line.is_empty()
    {
        let _ = eprintln!(rt; "{line}");
    }
}

// The command's words.
fn words(rt: &HostRuntime) -> io::Result<Vec<String>> {
    let words = env::args(rt)?.skip(1).collect(rt.alloc())?;
    Ok(words)
}

// The key of the claims' secrets: random, or else of this moment and process.
fn secret_key(rt: &HostRuntime) -> u64 {
    let mut bytes = [0u8; 8];
    match rt.fill_bytes(&mut bytes) {
        Ok(()) => u64::from_le_bytes(bytes),
        Err(_) => u64::from(nanoseconds(rt)) ^ u64::from(id(rt.process())).rotate_left(32),
    }
}

fn nanoseconds(rt: &impl Clock) -> u32 {
    match rt.since_1970() {
        Ok(since) => since.subsec_nanos(),
        Err(_) => 0,
    }
}
