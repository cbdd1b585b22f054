ghost use Rattle.std.specs.Prelude.{◌≡◌, ◌≤◌, ◌⊎◌, ◌∷◌, ◌++◌, [], true, false, None, Some, IfErr, OnOk, OnErr};
ghost use Rattle.pool_outer.specs.Cause.{Rose};
ghost use Rattle.pool_outer.specs.Files.{SameFiles};
ghost use Rattle.thin_pool.specs.Histories.{submissions_in};
ghost use Rattle.thin_pool.specs.declared.answer.StepError.TheVariants.{Jobs};
ghost use Rattle.thin_pool.specs.declared.event.Event.TheVariants.{Submit};
ghost use Rattle.thin_pool.specs.Reactions.{pool_after, refusal};
ghost use Rattle.thin_pool.specs.Resting.{IsResting};
ghost use Rattle.pool_input.specs.Faults.{IsFileFault, UnlessFault, UnlessOut};
ghost use Rattle.pool_input.specs.Readings.{AreRead};
ghost use Rattle.pool_input.specs.Status.{stage_of, IsAtFiles};
ghost use Rattle.pool_input.specs.Submissions.{IsSubmitRefused, StopsAt, Submits, TakesSubmission, submit_step, submit_steps};
ghost use Rattle.pool_input.specs.Words.{file_names};

use crate::fault::{Fault, fault_status, submit_fault};
use crate::input::read_text;
use crate::status::Status;
use ad_tree::AdList;
use pool_outer::{Clock, Store, Which};
use std::alloc::Global;
use submit_file::jobs;
use thin_pool::{Course, Event, StepError};

/// Submits what the files of these names ask for, in order.
pub(crate) fn submit_files<D: Store, C: Clock>(
    alloc: Global,
    store: &mut D,
    clock: &C,
    owner: &str,
    names: &[&str],
    course: &mut Course,
) -> Result<(), Status>
    requires rests { IsResting course.old.pool }
    requires empty { course.old.list ≡ [] }

    // What is answered of the files.
    ensures ok { D.tells store.old ≡ true → OnOk result (Submits (C.allows clock.now)
        (D.file store.old) owner.now (file_names names.now) course.old.pool
        (submissions_in course.new.list) None) }
    ensures refused { D.tells store.old ≡ true
        → IfErr result (UnlessFault (StopsAt (C.allows clock.now)
        (D.file store.old) owner.now (file_names names.now) course.old.pool)) }
    ensures early { IfErr result (λ s. IsAtFiles (stage_of s)) }
    ensures disk_fault { IfErr result
        (λ s. s ≡ Status.DiskFault → Rose (D.faults store.old) (D.faults store.new)) }

    // The pool and its history.
    ensures rests { IsResting course.new.pool }
    ensures slots { course.new.pool.slots ≡ course.old.pool.slots }
    ensures opening { course.new.opening ≡ course.old.opening }
    ensures steps { course.new.list ≡ submit_steps (submissions_in course.new.list) }
    ensures read { AreRead (C.allows clock.now) course.new.list }

    // The files themselves.
    ensures same { D.tells store.old ≡ true
        → SameFiles (D.file store.old) (D.file store.new) (D.solid store.old) (D.solid store.new) }
    ensures later { D.faults store.old ≤ D.faults store.new }
{
    'names: for name in names {
        match submit_file(alloc, store, clock, owner, *name, course) {
            Ok(()) => {}
            Err(fault) => return Err(fault_status(alloc, *name, fault)),
        }
    }
    Ok(())
}

// Submits what a file asks for. A fault leaves the pool as it was.
fn submit_file<D: Store, C: Clock>(
    alloc: Global,
    store: &mut D,
    clock: &C,
    owner: &str,
    name: &str,
    course: &mut Course,
) -> Result<(), Fault>
    requires rests { IsResting course.old.pool }

    // What is answered of the file.
    ensures taken { OnOk result (TakesSubmission (C.allows clock.now) (D.tells store.old)
        (D.file store.old name.now) owner.now course.old course.new) }
    ensures refused { D.tells store.old ≡ true
        → IfErr result (UnlessOut (IsSubmitRefused (C.allows clock.now)
        (D.file store.old name.now) owner.now course.old.pool)) }
    ensures of_files { IfErr result IsFileFault }
    ensures disk_fault { IfErr result
        (λ f. f ≡ Fault.Disk → Rose (D.faults store.old) (D.faults store.new)) }
    ensures unchanged { OnErr result (course.new ≡ course.old) }

    // The store.
    ensures same { D.tells store.old ≡ true
        → SameFiles (D.file store.old) (D.file store.new) (D.solid store.old) (D.solid store.new) }
    ensures told { D.tells store.new ≡ D.tells store.old }
    ensures later { D.faults store.old ≤ D.faults store.new }
{
    let text = match read_text(alloc, store, name) {
        Ok(text) => text,
        Err(fault) => return Err(fault),
    };
    let reading = clock.read();
    let cluster = course.pool().next_cluster();
    match jobs(alloc, text.as_str(), cluster, owner, reading) {
        Ok(jobs) => submit(alloc, course, jobs, reading),
        Err(error) => Err(submit_fault(&error)),
    }
}

// Submits jobs to a pool that is open.
fn submit(alloc: Global, course: &mut Course, jobs: AdList, reading: u64) -> Result<(), Fault>
    requires { course.old.pool.closed ≡ false }
    ensures accepted { OnOk result (refusal course.old.pool (Submit jobs reading) ≡ None) }
    ensures list { OnOk result
        (course.new.list ≡ course.old.list ++ submit_step (jobs, reading) ∷ []) }
    ensures pool { OnOk result
        (course.new.pool ≡ pool_after course.old.pool (Submit jobs reading)) }
    ensures opening { OnOk result (course.new.opening ≡ course.old.opening) }
    ensures refused { IfErr result (λ f. (f ≡ Fault.Memory)
        ⊎ ((f ≡ Fault.Limit Which.Jobs)
        × (refusal course.old.pool (Submit jobs reading) ≡ Some Jobs))) }
    ensures unchanged { OnErr result (course.new ≡ course.old) }
{
    match course.act(alloc, Event::Submit { jobs, reading }) {
        Ok(_) => Ok(()),
        Err(StepError::Jobs) => Err(Fault::Limit { which: Which::Jobs }),
        Err(_) => Err(Fault::Memory),
    }
}
