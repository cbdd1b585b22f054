ghost use Rattle.std.specs.Prelude.{◌≡◌, ◌≢◌, ◌≤◌, ◌⊎◌, ◌↔◌, [], ℕ, Bool, true, false, None, Some, All, length};
ghost use Rattle.pool_outer.specs.Cause.{Rose, RoseBy};
ghost use Rattle.pool_outer.specs.Files.{SameFiles};
ghost use Rattle.pool_input.specs.declared.status.Status.{Status};
ghost use Rattle.pool_input.specs.Faults.{IsStatusUnlessFault};
ghost use Rattle.pool_input.specs.Input.{IsInputRefused, IsRefusedInput, IsRefusedByFiles, IsRefusedOf, HasSubmitted, OfInputFrom, OfFilesFrom};
ghost use Rattle.thin_pool.specs.Histories.{submissions_in};
ghost use Rattle.pool_input.specs.Readings.{AreRead, AreReadings};
ghost use Rattle.pool_input.specs.Status.{stage_of, IsBeforePool, IsRefusal, IsAfterFiles, IsToday};
ghost use Rattle.pool_input.specs.Words.{IsNoRun, file_names, texts};
ghost use Rattle.pool_master.specs.Runs.{IsLaunched, EndAsSeen, child_runs, not_started_count, run_launches, runs_in, runs_on};
ghost use Rattle.pool_master.specs.Seen.{spawner_seen, sink_seen};
ghost use Rattle.pool_master.specs.Follows.{AtEach, IsChildCount, AreUntouched};
ghost use Rattle.pool_master.specs.WholeRun.{IsAllWritten, IsClosed, IsReplay, IsSafe, WritesPart, WritesAll, PoolRuns, HasNothing, IsPrinted, job_left};

use crate::output::write_all;
use crate::play::play;
use crate::user_log::log_text;
use pool_input::{Named, Status, WordsError, load, read};
use pool_outer::{Clock, Gate, Sink, Spawner, Store};
use std::alloc::Global;
use std::sync::Wait;
use std::thread::Threads;
use thin_pool::{Course, Event, History, Pool, StepList};

/// How many machines a pool may have; machine m launches on spawner m.
pub const MACHINES: usize = 64;

/// What a run leaves.
pub struct Ran<D, P> {
    pub status: Status,
    pub store: D,
    pub spawners: Vec<P>,
    pub history: History,
    /// The event whose refusal by a limit ended the run; none does today.
    pub refused: Option<Event>,
}

/// Runs a pool, from the words of the command to the printed user log.
///
/// The words are `run CONFIG [SUBMIT ...]`. Machine m launches on spawner m, and one job runs at a
/// time. The gate and the secret key are for later pools. Computes in O(bytes of the files), in
/// what the jobs take that they ask for, and in O(jobs * slots) evaluations, beside the children.
pub fn run_pool<
    R: Threads + Wait + Sync + std::rt::Clock,
    D: Store + Send,
    C: Clock + Sync,
    P: Spawner + Send,
    K: Sink,
    G: Gate + Sync,
>(
    rt: &R,
    alloc: Global,
    words: &[String],
    mut store: D,
    clock: &C,
    mut spawners: Vec<P>,
    _gate: &G,
    _secret_key: u64,
    out: &mut K,
) -> Ran<D, P>
    requires machines { length spawners.items ≡ MACHINES }
    requires idle { All (λ s. P.count s ≡ 0) spawners.items }

    // The history.
    ensures history { IsReplay result.history }
    ensures history_input { D.tells store ≡ true → OfInputFrom (C.allows clock.now) (D.file store)
        (texts words.now) result.history.opening result.history.list }
    ensures history_readings { AreRead (C.allows clock.now) result.history.list }
    ensures safe { IsSafe result.history }
    ensures refused { result.refused ≡ None }

    // The children of each machine.
    ensures launched { AtEach spawners.items result.spawners.items (λ m s t. P.tells s ≡ true
        → IsLaunched (runs_on m (runs_in result.history.list)) (P.launches t)) }
    ensures all_launched { AtEach spawners.items result.spawners.items (λ m s t.
        P.tells s ≡ true → (left : Bool) → IsClosed result.history left
        → P.launches t ≡ run_launches (child_runs (runs_on m (runs_in result.history.list)))) }
    ensures counted { AtEach spawners.items result.spawners.items (λ m s t.
        IsChildCount (runs_on m (runs_in result.history.list)) (P.count t)) }
    ensures all_counted { AtEach spawners.items result.spawners.items (λ m s t.
        (left : Bool) → IsClosed result.history left
        → P.count t ≡ length (child_runs (runs_on m (runs_in result.history.list)))) }
    ensures ended { AtEach spawners.items result.spawners.items (λ m s t. P.tells s ≡ true
        → EndAsSeen (runs_on m (runs_in result.history.list)) (P.seen t)) }
    ensures spared { AtEach spawners.items result.spawners.items (λ m s t. P.tells s ≡ true
        → (child : ℕ) → P.killed t child ≡ false) }
    ensures not_started { AtEach spawners.items result.spawners.items (λ m s t.
        RoseBy (not_started_count (runs_on m (runs_in result.history.list)))
        (P.faults s) (P.faults t)) }
    ensures untouched { AreUntouched spawners.items result.spawners.items
        (runs_in result.history.list) }
    ensures machines { length result.spawners.items ≡ MACHINES }

    // The output.
    ensures written { K.tells out.old ≡ true
        → WritesPart result.history (K.written out.old) (K.written out.new) }
    ensures all_written { K.tells out.old ≡ true → IsAllWritten result.status
        → WritesAll result.history (K.written out.old) (K.written out.new) }

    // The statuses.
    ensures status_usage { result.status ≡ Status.Usage ↔ IsNoRun (texts words.now) }
    ensures status_refused { D.tells store ≡ true → IsRefusal result.status
        → IsRefusedInput (C.allows clock.now) (D.file store) (texts words.now) result.status }
    ensures status_refused_comes { D.tells store ≡ true → (s : Status)
        → IsInputRefused (D.file store) (texts words.now) s
        → IsStatusUnlessFault s result.status }
    ensures status_done { result.status ≡ Status.Done
        → IsClosed result.history false × (K.faults out.new ≡ K.faults out.old) }
    ensures status_done_comes { IsClosed result.history false
        → ¬ Rose (K.faults out.old) (K.faults out.new)
        → (result.status ≡ Status.Done) ⊎ (result.status ≡ Status.Memory) }
    ensures status_stuck { result.status ≡ Status.Stuck
        → IsClosed result.history true × (K.faults out.new ≡ K.faults out.old) }
    ensures status_stuck_comes { IsClosed result.history true
        → ¬ Rose (K.faults out.old) (K.faults out.new)
        → (result.status ≡ Status.Stuck) ⊎ (result.status ≡ Status.Memory) }
    ensures status_disk_fault { result.status ≡ Status.DiskFault
        → Rose (D.faults store) (D.faults result.store) }
    ensures status_out_fault { result.status ≡ Status.OutFault
        → Rose (K.faults out.old) (K.faults out.new)
        × ((left : Bool) × IsClosed result.history left) }
    ensures status_early { IsBeforePool (stage_of result.status) → HasNothing result.history }
    ensures status_today { IsToday (stage_of result.status) }

    // The files.
    ensures store_usage { result.status ≡ Status.Usage → result.store ≡ store }
    ensures store { D.tells store ≡ true
        → SameFiles (D.file store) (D.file result.store) (D.solid store) (D.solid result.store) }
{
    let places = spawners.as_mut_slice();
    let (status, history) = run(rt, alloc, words, &mut store, clock, places, out);
    Ran {
        status,
        store,
        spawners,
        history,
        refused: None,
    }
}

// The run, on a store and spawners that are lent.
fn run<R: Wait, D: Store, C: Clock, P: Spawner, K: Sink>(
    rt: &R,
    alloc: Global,
    words: &[String],
    store: &mut D,
    clock: &C,
    spawners: &mut [P],
    out: &mut K,
) -> (Status, History)
    requires machines { length spawners.old ≡ MACHINES }
    requires idle { All (λ s. P.count s ≡ 0) spawners.old }
    ensures runs { PoolRuns (C.allows clock.now)
        (spawner_seen P.tells P.count P.launches P.seen P.killed P.faults)
        spawners.old spawners.new
        (sink_seen K.tells K.written K.faults) out.old out.new result.0 result.1 }

    // The statuses of the words and the files.
    ensures history_input { D.tells store.old ≡ true
        → OfInputFrom (C.allows clock.now) (D.file store.old) (texts words.now)
        result.1.opening result.1.list }
    ensures status_usage { result.0 ≡ Status.Usage ↔ IsNoRun (texts words.now) }
    ensures status_refused { D.tells store.old ≡ true → IsRefusal result.0
        → IsRefusedInput (C.allows clock.now) (D.file store.old) (texts words.now) result.0 }
    ensures status_refused_comes { D.tells store.old ≡ true → (s : Status)
        → IsInputRefused (D.file store.old) (texts words.now) s
        → IsStatusUnlessFault s result.0 }
    ensures status_disk_fault { result.0 ≡ Status.DiskFault
        → Rose (D.faults store.old) (D.faults store.new) }
    ensures status_early { IsBeforePool (stage_of result.0) → HasNothing result.1 }
    ensures status_today { IsToday (stage_of result.0) }

    // The files.
    ensures store_usage { result.0 ≡ Status.Usage → store.new ≡ store.old }
    ensures store { D.tells store.old ≡ true
        → SameFiles (D.file store.old) (D.file store.new) (D.solid store.old) (D.solid store.new) }
{
    match read(alloc, words) {
        Ok(named) => run_files(rt, alloc, &named, store, clock, spawners, out),
        Err(WordsError::Usage) => (Status::Usage, no_history(alloc)),
        Err(WordsError::Memory) => (Status::Memory, no_history(alloc)),
    }
}

// The run on a configuration and submit files.
fn run_files<R: Wait, D: Store, C: Clock, P: Spawner, K: Sink>(
    rt: &R,
    alloc: Global,
    named: &Named<'_>,
    store: &mut D,
    clock: &C,
    spawners: &mut [P],
    out: &mut K,
) -> (Status, History)
    requires machines { length spawners.old ≡ MACHINES }
    requires idle { All (λ s. P.count s ≡ 0) spawners.old }
    ensures runs { PoolRuns (C.allows clock.now)
        (spawner_seen P.tells P.count P.launches P.seen P.killed P.faults)
        spawners.old spawners.new
        (sink_seen K.tells K.written K.faults) out.old out.new result.0 result.1 }

    // The statuses of the files, and the files themselves.
    ensures files { D.tells store.old ≡ true
        → OfFilesFrom (C.allows clock.now) (D.file store.old) named.now.config.now
        (file_names named.now.submits.items) result.1.opening result.1.list }
    ensures refused { D.tells store.old ≡ true → IsRefusal result.0
        → IsRefusedOf (C.allows clock.now) (D.file store.old) named.now.config.now
        (file_names named.now.submits.items) result.0 }
    ensures refused_comes { D.tells store.old ≡ true → (s : Status)
        → IsRefusedByFiles (D.file store.old) named.now.config.now
        (file_names named.now.submits.items) s → IsStatusUnlessFault s result.0 }
    ensures disk_fault { result.0 ≡ Status.DiskFault
        → Rose (D.faults store.old) (D.faults store.new) }
    ensures early { IsBeforePool (stage_of result.0) → HasNothing result.1 }
    ensures today { IsToday (stage_of result.0) × (result.0 ≢ Status.Usage) }
    ensures store { D.tells store.old ≡ true
        → SameFiles (D.file store.old) (D.file store.new) (D.solid store.old) (D.solid store.new) }
{
    match load(alloc, store, clock, named) {
        Ok(course) => run_course(rt, alloc, course, clock, spawners, out),
        Err(status) => (status, no_history(alloc)),
    }
}

// The run of a pool to which only submissions have happened.
fn run_course<R: Wait, C: Clock, P: Spawner, K: Sink>(
    rt: &R,
    alloc: Global,
    mut course: Course,
    clock: &C,
    spawners: &mut [P],
    out: &mut K,
) -> (Status, History)
    requires machines { length spawners.old ≡ MACHINES }
    requires idle { All (λ s. P.count s ≡ 0) spawners.old }
    requires submitted { HasSubmitted (C.allows clock.now) course }
    ensures runs { PoolRuns (C.allows clock.now)
        (spawner_seen P.tells P.count P.launches P.seen P.killed P.faults)
        spawners.old spawners.new
        (sink_seen K.tells K.written K.faults) out.old out.new result.0 result.1 }
    ensures opening { result.1.opening ≡ Some course.opening }
    ensures submits { submissions_in result.1.list ≡ submissions_in course.list }
    ensures late { IsAfterFiles (stage_of result.0) }
{
    let played = play(rt, alloc, &mut course, clock, spawners);
    let (history, pool) = course.finish();
    match played {
        Ok(()) => (print(alloc, &history, &pool, out), history),
        Err(_) => (Status::Memory, history),
    }
}

// The history of a run whose pool wasn't opened.
fn no_history(alloc: Global) -> History
    ensures nothing { HasNothing result }
    ensures load { result.load ≡ false }
{
    History {
        opening: None,
        load: false,
        list: StepList::new(alloc),
    }
}

// Writes the user log of a history, and says how the run ended whose pool was closed so.
fn print<K: Sink>(alloc: Global, history: &History, pool: &Pool, out: &mut K) -> Status
    requires { AreReadings history.now.list }
    ensures written { K.tells out.old ≡ true
        → WritesPart history.now (K.written out.old) (K.written out.new) }
    ensures all_written { K.tells out.old ≡ true
        → (result ≡ Status.Done) ⊎ (result ≡ Status.Stuck)
        → WritesAll history.now (K.written out.old) (K.written out.new) }
    ensures printed { IsPrinted (job_left pool.now) (K.faults out.old) (K.faults out.new) result }
    ensures later { K.faults out.old ≤ K.faults out.new }
{
    let text = match log_text(alloc, history) {
        Ok(text) => text,
        Err(_) => return Status::Memory,
    };
    match write_all(out, text.as_str().as_bytes()) {
        Ok(()) if pool.has_unfinished() => Status::Stuck,
        Ok(()) => Status::Done,
        Err(_) => Status::OutFault,
    }
}
