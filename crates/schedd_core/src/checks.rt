// What a look at the periodic expressions of a job makes of a schedd.

ghost use Rattle.std.specs.Prelude.{◌≡◌, IfOk, OnErr};
ghost use Rattle.std.specs.BTreeMap.{insert_entry};
ghost use Rattle.queue_tx.specs.Keys.{key_cmp};
ghost use Rattle.schedd_state.specs.PreparedSchedds.{HasClaimRoom, schedd_after};
ghost use Rattle.schedd_state.specs.Schedds.{waits_for};
ghost use Rattle.schedd_core.specs.Checks.{policy_plan, after_check};

use ad_eval::holds;
use ad_tree::Ad;
use ad_value::Memory;
use ad_value::names::job::{PERIODIC_HOLD, PERIODIC_RELEASE, PERIODIC_REMOVE};
use claim_id::JobId;
use queue_tx::{Key, Queue};
use schedd_plan::{
    JobPlace, JobPlan, Reason, ad_of, can_be_held, hold_plan, is_waiting, remove_plan, resume_plan,
};
use schedd_state::{
    ClaimsChange, LeftChange, LooksChange, NewLook, PreparedSchedd, RunsChange, Schedd,
    ScheddChange, ScheddStep,
};
use std::alloc::Global;

/// A look at the periodic expressions of a job. The queue is the one as logged, and no
/// transaction is unfinished. After an error the schedd is as it was. Computes in O(log jobs +
/// log jobs left), and the evaluation of up to three expressions.
pub fn check(
    schedd: &mut Schedd,
    alloc: Global,
    queue: &Queue,
    job: JobId,
    reading: u64,
) -> Result<ScheddStep, Memory>
    ensures schedd { IfOk result (λ _. schedd.new
        ≡ (after_check schedd.old queue.now job reading).schedd) }
    ensures step { IfOk result (λ step. step
        ≡ (after_check schedd.old queue.now job reading).step) }
    ensures kept { OnErr result (schedd.new ≡ schedd.old) }
{
    let prepared = prepare_check(schedd, alloc, queue, job, reading)?;
    Ok(schedd.commit(prepared))
}

/// `check` but for its `commit`: takes the memory, and changes nothing.
pub fn prepare_check(
    schedd: &Schedd,
    alloc: Global,
    queue: &Queue,
    job: JobId,
    reading: u64,
) -> Result<PreparedSchedd, Memory>
    ensures schedd { IfOk result (λ p. schedd_after p schedd.now
        ≡ (after_check schedd.now queue.now job reading).schedd) }
    ensures step { IfOk result (λ p. p.step
        ≡ (after_check schedd.now queue.now job reading).step) }
    ensures room { IfOk result (λ p. HasClaimRoom p schedd.now) }
{
    let Some(ad) = ad_of(queue, job) else {
        return Ok(schedd.nothing(alloc));
    };
    let place = schedd.place(queue, job);
    let plan = policy_plan(alloc, place, job, ad, reading)?;
    let look = NewLook::new(alloc, Key::Proc(job), reading)?;
    Ok(look_at(schedd, alloc, look, plan))
}

// What the periodic expressions of a job want.
fn policy_plan(
    alloc: Global,
    place: JobPlace,
    job: JobId,
    ad: &Ad,
    reading: u64,
) -> Result<Option<JobPlan>, Memory>
    ensures { IfOk result (λ plan. plan ≡ policy_plan place job ad.now reading) }
{
    if can_be_held(place) && holds(alloc, ad, None, PERIODIC_HOLD, reading)? {
        return Ok(hold_plan(place, job, Reason::ByPolicy));
    }
    if holds(alloc, ad, None, PERIODIC_REMOVE, reading)? {
        return Ok(remove_plan(place, job));
    }
    if is_waiting(place) && holds(alloc, ad, None, PERIODIC_RELEASE, reading)? {
        return Ok(resume_plan(place, job));
    }
    Ok(None)
}

// A job is looked at, and perhaps a plan is to be logged.
fn look_at(schedd: &Schedd, alloc: Global, look: NewLook, plan: Option<JobPlan>) -> PreparedSchedd
    ensures schedd { schedd_after result schedd.now ≡ (waits_for plan (record schedd.now {
      checked = insert_entry key_cmp schedd.now.checked look.0 look.1;
    })).schedd }
    ensures step { result.step ≡ (waits_for plan schedd.now).step }
    ensures room { HasClaimRoom result schedd.now }
{
    let Some(plan) = plan else {
        return looked(schedd, look, schedd.waiting(), ScheddStep::nothing(alloc));
    };
    looked(schedd, look, Some(plan), ScheddStep::plan(alloc, plan))
}

fn looked(
    schedd: &Schedd,
    look: NewLook,
    waiting: Option<JobPlan>,
    step: ScheddStep,
) -> PreparedSchedd
    ensures schedd { schedd_after result schedd.now ≡ record schedd.now {
      checked = insert_entry key_cmp schedd.now.checked look.0 look.1;
      waiting = waiting;
    } }
    ensures step { result.step ≡ step }
    ensures room { HasClaimRoom result schedd.now }
{
    let change = ScheddChange {
        next_run: schedd.next_run(),
        left: LeftChange::Same,
        claims: ClaimsChange::Same,
        runs: RunsChange::Same,
        looks: LooksChange::Put(look),
        waiting,
    };
    PreparedSchedd { change, step }
}
