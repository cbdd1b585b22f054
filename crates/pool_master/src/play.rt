ghost use Rattle.std.specs.Prelude.{◌≡◌, ◌≢◌, ◌≤◌, ◌<◌, ◌+◌, ◌++◌, ◌∷◌, [], ℕ, true, false, None, Some, length, slice_get, IfOk, OnOk, OnErr, IsTrue, is_ok, ◌↔◌};
ghost use Rattle.pool_outer.specs.Cause.{Rose};
ghost use Rattle.pool_mail.specs.declared.end.End.TheVariants.{NotStarted};
ghost use Rattle.thin_pool.specs.declared.answer.Kept.TheVariants as kept;
ghost use Rattle.thin_pool.specs.declared.event.Event.TheVariants.{Start, Close};
ghost use Rattle.thin_pool.specs.Answers.{kept_of};
ghost use Rattle.thin_pool.specs.Histories.{submissions_in};
ghost use Rattle.thin_pool.specs.Reactions.{refusal, pool_after, answer_to};
ghost use Rattle.thin_pool.specs.Resting.{IsResting, idle_count};
ghost use Rattle.pool_input.specs.Input.{ArePlaced};
ghost use Rattle.pool_input.specs.Readings.{AreRead, IsInCalendar};
ghost use Rattle.pool_master.specs.Runs.{child_launch, child_state, runs_in};
ghost use Rattle.pool_master.specs.Seen.{spawner_seen};
ghost use Rattle.pool_master.specs.Follows.{EachGoesOn, IsBetween, RunsChild, RunsNoChild, RunsOne, StayUntouched};

use crate::pause::Pause;
use ad_eval::NoMatch;
use ad_value::Memory;
use pool_mail::End;
use pool_outer::{ChildState, Clock, Launch, SpawnError, Spawner};
use std::alloc::Global;
use std::sync::Wait;
use thin_pool::laws::{events_keep_slots, runs_end_in_rest, starts_are_placed};
use thin_pool::{Answer, Course, Event, Next, Pair};

/// Runs idle jobs that match a slot, one after the other, and closes the pool once none does: each
/// when its turn comes, in order, on the first slot that it matches then, and again from the first
/// where one was found after all. Machine m launches on spawner m. An error leaves the course as
/// far as it has come. Computes in O(jobs * slots) evaluations for each time that it begins, beside
/// the children.
pub fn play<R: Wait, C: Clock, P: Spawner>(
    rt: &R,
    alloc: Global,
    course: &mut Course,
    clock: &C,
    spawners: &mut [P],
) -> Result<(), Memory>
    requires resting { IsResting course.old.pool }
    requires placed { ArePlaced course.old.pool.slots (length spawners.old) }
    requires between { IsBetween
        (spawner_seen P.tells P.count P.launches P.seen P.killed P.faults) spawners.old
        (runs_in course.old.list) }

    // The history.
    ensures follows { EachGoesOn
        (spawner_seen P.tells P.count P.launches P.seen P.killed P.faults)
        spawners.old spawners.new (runs_in course.old.list) (runs_in course.new.list) }
    ensures untouched { StayUntouched spawners.old spawners.new
        (runs_in course.old.list) (runs_in course.new.list) }
    ensures between { OnOk result (IsBetween
        (spawner_seen P.tells P.count P.launches P.seen P.killed P.faults) spawners.new
        (runs_in course.new.list)) }
    ensures read { AreRead (C.allows clock.now) course.old.list
        → AreRead (C.allows clock.now) course.new.list }
    ensures submits { submissions_in course.new.list ≡ submissions_in course.old.list }

    // The pool.
    ensures closed { IsTrue (is_ok result) ↔ (course.new.pool.closed ≡ true) }
    ensures opening { course.new.opening ≡ course.old.opening }
{
    'turns: loop {
        run_each(rt, alloc, course, clock, spawners)?;
        let reading = clock.read();
        match course.pool().next(alloc, reading)? {
            Next::Close { none } => {
                close(alloc, course, reading, none)?;
                return Ok(());
            }
            Next::Start { pair } => run_job(rt, alloc, course, clock, spawners, pair, reading)?,
        }
    }
}

// Runs each idle job that matches a slot when its turn comes, in order.
fn run_each<R: Wait, C: Clock, P: Spawner>(
    rt: &R,
    alloc: Global,
    course: &mut Course,
    clock: &C,
    spawners: &mut [P],
) -> Result<(), Memory>
    requires resting { IsResting course.old.pool }
    requires placed { ArePlaced course.old.pool.slots (length spawners.old) }
    requires between { IsBetween
        (spawner_seen P.tells P.count P.launches P.seen P.killed P.faults) spawners.old
        (runs_in course.old.list) }

    // The history.
    ensures follows { EachGoesOn
        (spawner_seen P.tells P.count P.launches P.seen P.killed P.faults)
        spawners.old spawners.new (runs_in course.old.list) (runs_in course.new.list) }
    ensures untouched { StayUntouched spawners.old spawners.new
        (runs_in course.old.list) (runs_in course.new.list) }
    ensures between { OnOk result (IsBetween
        (spawner_seen P.tells P.count P.launches P.seen P.killed P.faults) spawners.new
        (runs_in course.new.list)) }
    ensures read { AreRead (C.allows clock.now) course.old.list
        → AreRead (C.allows clock.now) course.new.list }
    ensures submits { submissions_in course.new.list ≡ submissions_in course.old.list }

    // The pool.
    ensures resting { OnOk result (IsResting course.new.pool) }
    ensures no_more { OnOk result (idle_count course.new.pool ≤ idle_count course.old.pool) }
    ensures open { course.new.pool.closed ≡ false }
    ensures slots { course.new.pool.slots ≡ course.old.pool.slots }
    ensures opening { course.new.opening ≡ course.old.opening }
{
    'places: for place in 0..course.pool().job_count() {
        run_at(rt, alloc, course, clock, spawners, place)?;
    }
    Ok(())
}

// Runs the job at a place, where it is idle and matches a slot.
fn run_at<R: Wait, C: Clock, P: Spawner>(
    rt: &R,
    alloc: Global,
    course: &mut Course,
    clock: &C,
    spawners: &mut [P],
    place: usize,
) -> Result<(), Memory>
    requires resting { IsResting course.old.pool }
    requires placed { ArePlaced course.old.pool.slots (length spawners.old) }
    requires between { IsBetween
        (spawner_seen P.tells P.count P.launches P.seen P.killed P.faults) spawners.old
        (runs_in course.old.list) }

    // The history.
    ensures follows { EachGoesOn
        (spawner_seen P.tells P.count P.launches P.seen P.killed P.faults)
        spawners.old spawners.new (runs_in course.old.list) (runs_in course.new.list) }
    ensures untouched { StayUntouched spawners.old spawners.new
        (runs_in course.old.list) (runs_in course.new.list) }
    ensures between { OnOk result (IsBetween
        (spawner_seen P.tells P.count P.launches P.seen P.killed P.faults) spawners.new
        (runs_in course.new.list)) }
    ensures read { AreRead (C.allows clock.now) course.old.list
        → AreRead (C.allows clock.now) course.new.list }
    ensures submits { submissions_in course.new.list ≡ submissions_in course.old.list }

    // The pool.
    ensures resting { OnOk result (IsResting course.new.pool) }
    ensures no_more { OnOk result (idle_count course.new.pool ≤ idle_count course.old.pool) }
    ensures open { course.new.pool.closed ≡ false }
    ensures slots { course.new.pool.slots ≡ course.old.pool.slots }
    ensures opening { course.new.opening ≡ course.old.opening }
{
    let reading = clock.read();
    match course.pool().pair_at(alloc, place, reading)? {
        Some(pair) => run_job(rt, alloc, course, clock, spawners, pair, reading),
        None => Ok(()),
    }
}

fn close(alloc: Global, course: &mut Course, reading: u64, none: NoMatch) -> Result<(), Memory>
    requires { refusal course.old.pool (Close reading none) ≡ None }
    ensures list { OnOk result (course.new.list ≡ course.old.list
        ++ record { event = Close reading none; kept = kept.Done } ∷ []) }
    ensures pool { OnOk result (course.new.pool ≡ pool_after course.old.pool (Close reading none)) }
    ensures opening { course.new.opening ≡ course.old.opening }
    ensures err { OnErr result (course.new ≡ course.old) }
{
    act(alloc, course, Event::Close { reading, none })?;
    Ok(())
}

// Starts a job at a reading, and waits until its run has ended.
fn run_job<R: Wait, C: Clock, P: Spawner>(
    rt: &R,
    alloc: Global,
    course: &mut Course,
    clock: &C,
    spawners: &mut [P],
    pair: Pair,
    reading: u64,
) -> Result<(), Memory>
    requires resting { IsResting course.old.pool }
    requires accepted { refusal course.old.pool (Start pair.job pair.slot pair.judged reading)
        ≡ None }
    requires placed { ArePlaced course.old.pool.slots (length spawners.old) }
    requires allowed { C.allows clock.now reading }
    requires in_range { IsInCalendar reading }
    requires between { IsBetween
        (spawner_seen P.tells P.count P.launches P.seen P.killed P.faults) spawners.old
        (runs_in course.old.list) }

    // The history.
    ensures follows { EachGoesOn
        (spawner_seen P.tells P.count P.launches P.seen P.killed P.faults)
        spawners.old spawners.new (runs_in course.old.list) (runs_in course.new.list) }
    ensures untouched { StayUntouched spawners.old spawners.new
        (runs_in course.old.list) (runs_in course.new.list) }
    ensures between { OnOk result (IsBetween
        (spawner_seen P.tells P.count P.launches P.seen P.killed P.faults) spawners.new
        (runs_in course.new.list)) }
    ensures read { AreRead (C.allows clock.now) course.old.list
        → AreRead (C.allows clock.now) course.new.list }
    ensures submits { submissions_in course.new.list ≡ submissions_in course.old.list }

    // The pool.
    ensures resting { OnOk result (IsResting course.new.pool) }
    ensures fewer { OnOk result (idle_count course.new.pool < idle_count course.old.pool) }
    ensures open { course.new.pool.closed ≡ false }
    ensures slots { course.new.pool.slots ≡ course.old.pool.slots }
    ensures opening { course.new.opening ≡ course.old.opening }
{
    runs_end_in_rest();
    starts_are_placed();
    events_keep_slots();
    let job = pair.job;
    let machine = pair.slot.machine as usize;
    let what = course.start(alloc, pair, reading)?;
    let end = run_on(rt, alloc, spawners, machine, &what)?;
    let reading = clock.read();
    act(alloc, course, Event::Ended { job, end, reading })?;
    Ok(())
}

// An event that the pool accepts.
fn act(alloc: Global, course: &mut Course, event: Event) -> Result<Answer, Memory>
    requires { refusal course.old.pool event ≡ None }
    ensures answer { IfOk result (λ a. a ≡ answer_to course.old.pool event) }
    ensures list { OnOk result (course.new.list ≡ course.old.list
        ++ record { event = event; kept = kept_of (answer_to course.old.pool event) } ∷ []) }
    ensures pool { OnOk result (course.new.pool ≡ pool_after course.old.pool event) }
    ensures opening { course.new.opening ≡ course.old.opening }
    ensures same { OnErr result (course.new ≡ course.old) }
{
    match course.act(alloc, event) {
        Ok(answer) => Ok(answer),
        Err(_) => Err(Memory),
    }
}

// Launches a child on a machine's spawner, and looks until it has ended.
fn run_on<R: Wait, P: Spawner>(
    rt: &R,
    alloc: Global,
    spawners: &mut [P],
    machine: usize,
    what: &Launch,
) -> Result<End, Memory>
    requires { machine < length spawners.old }
    ensures ran { IfOk result (λ end. RunsOne
        (spawner_seen P.tells P.count P.launches P.seen P.killed P.faults)
        machine spawners.old spawners.new (RunsChild what.now end)) }
    ensures not_run { OnErr result (RunsOne
        (spawner_seen P.tells P.count P.launches P.seen P.killed P.faults)
        machine spawners.old spawners.new RunsNoChild) }
    ensures others { (m : ℕ) → m ≢ machine
        → slice_get spawners.new m ≡ slice_get spawners.old m }
{
    run_child(rt, alloc, &mut spawners[machine], what)
}

// Launches a child, and looks until it has ended, with pauses; a look that fails is made again.
fn run_child<R: Wait, P: Spawner>(
    rt: &R,
    alloc: Global,
    spawner: &mut P,
    what: &Launch,
) -> Result<End, Memory>
    // What was launched.
    ensures launched { P.tells spawner.old ≡ true → IfOk result (λ end.
        P.launches spawner.new ≡ P.launches spawner.old ++ child_launch what.now end) }
    ensures refused { P.tells spawner.old ≡ true
        → OnErr result (P.launches spawner.new ≡ P.launches spawner.old) }
    ensures count { IfOk result (λ end. P.count spawner.new
        ≡ P.count spawner.old + length (child_launch what.now end)) }
    ensures uncounted { OnErr result (P.count spawner.new ≡ P.count spawner.old) }

    // What was seen of the children.
    ensures seen { P.tells spawner.old ≡ true
        → IfOk result
        (λ end. end ≢ NotStarted → P.seen spawner.new (P.count spawner.old) ≡ child_state end) }
    ensures others { P.tells spawner.old ≡ true → (k : ℕ) → k ≢ P.count spawner.old
        → P.seen spawner.new k ≡ P.seen spawner.old k }
    ensures spared { P.tells spawner.old ≡ true → (k : ℕ)
        → P.killed spawner.new k ≡ P.killed spawner.old k }

    // The faults, and whether it tells.
    ensures not_started { IfOk result
        (λ end. end ≡ NotStarted → Rose (P.faults spawner.old) (P.faults spawner.new)) }
    ensures later { P.faults spawner.old ≤ P.faults spawner.new }
    ensures told { P.tells spawner.new ≡ P.tells spawner.old }
{
    let child = match spawner.launch(alloc, what) {
        Ok(child) => child,
        Err(SpawnError::Failed) => return Ok(End::NotStarted),
        Err(SpawnError::Memory) => return Err(Memory),
    };
    let mut pause = Pause::new();
    let mut end = End::NotStarted;
    'looks: for _ in rt.forever() {
        match spawner.poll(child) {
            Ok(ChildState::Exited(code)) => {
                end = End::Exited(code);
                break;
            }
            Ok(ChildState::Signalled(signal)) => {
                end = End::Signalled(signal);
                break;
            }
            Ok(ChildState::Running) | Err(_) => pause.wait(rt),
        }
    }
    Ok(end)
}
