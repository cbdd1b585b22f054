// What an event makes of what a schedd keeps, with the memory for it.

ghost use Rattle.std.specs.Prelude.{◌≡◌, ◌<◌, ◌≤◌, ◌+◌, ◌++◌, ◌∷◌, [], length, vec_capacity, vec_len};
ghost use Rattle.schedd_state.specs.PreparedSchedds.{CanPut, claims_after, left_after, looks_after, passed_after, runs_after};

use crate::looks::Looks;
use crate::new_look::NewLook;
use claim_id::{ClaimNo, JobId};
use queue_tx::Key;
use schedd_plan::{
    Fate, JobPlan, KeptClaim, KeptRun, LeftJobs, Stage, place_of_claim, remove_claim, remove_run,
    set_alive, set_job, set_stage, settle_claim,
};
use std::mem::replace;

/// What becomes of the jobs that were left.
pub enum LeftChange {
    Same,
    /// A job is no longer one of them.
    TakeOff(JobId),
    /// They are these.
    All(LeftJobs),
}

impl Drop for LeftChange {
    fn drop(self) {
        match self {
            LeftChange::Same => {}
            LeftChange::TakeOff(_) => {}
            LeftChange::All(_jobs) => {}
        }
    }
}

/// What becomes of the claims.
pub enum ClaimsChange {
    Same,
    /// One more at the end, with room for all of them.
    Put {
        claim: KeptClaim,
        room: Vec<KeptClaim>,
    },
    /// The claim of a place has come so far.
    Stage {
        place: usize,
        stage: Stage,
    },
    /// The claim of a place names a job.
    Job {
        place: usize,
        job: JobId,
    },
    /// The claim of a place goes.
    Remove {
        place: usize,
    },
    /// The run of a claim is over.
    Settle {
        claim: ClaimNo,
        fate: Fate,
    },
    /// A claim is leaving.
    Leave {
        claim: ClaimNo,
    },
    /// They are these.
    All(Vec<KeptClaim>),
}

impl Drop for ClaimsChange {
    fn drop(self) {
        match self {
            ClaimsChange::Same => {}
            ClaimsChange::Put {
                claim: _claim,
                room: _room,
            } => {}
            ClaimsChange::Stage { place: _, stage: _ } => {}
            ClaimsChange::Job { place: _, job: _ } => {}
            ClaimsChange::Remove { place: _ } => {}
            ClaimsChange::Settle { claim: _, fate: _ } => {}
            ClaimsChange::Leave { claim: _ } => {}
            ClaimsChange::All(_claims) => {}
        }
    }
}

/// What becomes of the runs.
pub enum RunsChange {
    Same,
    /// The run of a place was alive at a reading.
    Alive {
        place: usize,
        alive: u64,
        found: bool,
    },
    /// The run of a place goes.
    Remove {
        place: usize,
    },
    /// They are these.
    All(Vec<KeptRun>),
}

impl Drop for RunsChange {
    fn drop(self) {
        match self {
            RunsChange::Same => {}
            RunsChange::Alive {
                place: _,
                alive: _,
                found: _,
            } => {}
            RunsChange::Remove { place: _ } => {}
            RunsChange::All(_runs) => {}
        }
    }
}

/// What becomes of the looks at periodic expressions.
pub enum LooksChange {
    Same,
    /// A job is looked at.
    Put(NewLook),
    /// A job is forgotten.
    Forget(JobId),
    /// All jobs are forgotten.
    Clear,
}

impl Drop for LooksChange {
    fn drop(self) {
        match self {
            LooksChange::Same => {}
            LooksChange::Put(_look) => {}
            LooksChange::Forget(_) => {}
            LooksChange::Clear => {}
        }
    }
}

/// What an event makes of a schedd.
#[derive(Drop)]
pub struct ScheddChange {
    /// The number of the run that is granted next.
    pub next_run: u64,
    pub left: LeftChange,
    pub claims: ClaimsChange,
    pub runs: RunsChange,
    pub looks: LooksChange,
    /// What is to be logged.
    pub waiting: Option<JobPlan>,
}

impl LeftChange {
    pub(crate) fn commit(self, left: &mut LeftJobs)
        ensures { left.new ≡ left_after self left.old }
    {
        match self {
            LeftChange::Same => {}
            LeftChange::TakeOff(job) => left.take_off(job),
            LeftChange::All(jobs) => *left = jobs,
        }
    }
}

impl ClaimsChange {
    pub(crate) fn commit(self, claims: &mut Vec<KeptClaim>)
        requires { CanPut self claims.old.items }
        ensures { claims.new.items ≡ claims_after self claims.old.items }
    {
        match self {
            ClaimsChange::Same => {}
            ClaimsChange::Put { claim, room } => push_with_room(claims, claim, room),
            ClaimsChange::Stage { place, stage } => set_stage(claims, place, stage),
            ClaimsChange::Job { place, job } => set_job(claims, place, job),
            ClaimsChange::Remove { place } => remove_claim(claims, place),
            ClaimsChange::Settle { claim, fate } => settle_claim(claims, claim, fate),
            ClaimsChange::Leave { claim } => {
                if let Some(place) = place_of_claim(claims, claim) {
                    set_stage(claims, place, Stage::Leaving);
                }
            }
            ClaimsChange::All(list) => *claims = list,
        }
    }
}

impl RunsChange {
    pub(crate) fn commit(self, runs: &mut Vec<KeptRun>)
        ensures { runs.new.items ≡ runs_after self runs.old.items }
    {
        match self {
            RunsChange::Same => {}
            RunsChange::Alive {
                place,
                alive,
                found,
            } => set_alive(runs, place, alive, found),
            RunsChange::Remove { place } => remove_run(runs, place),
            RunsChange::All(list) => *runs = list,
        }
    }
}

impl LooksChange {
    /// The mark up to which all jobs were looked at. Nothing is below it where all are forgotten.
    pub(crate) fn mark(&self, passed: Option<Key>) -> Option<Key>
        ensures { result ≡ passed_after self.now passed }
    {
        match self {
            LooksChange::Same => passed,
            LooksChange::Put(_) => passed,
            LooksChange::Forget(_) => passed,
            LooksChange::Clear => None,
        }
    }

    pub(crate) fn commit(self, looks: &mut Looks)
        ensures { looks.new ≡ looks_after self looks.old }
    {
        match self {
            LooksChange::Same => {}
            LooksChange::Put(look) => looks.put(look),
            LooksChange::Forget(job) => looks.remove(&Key::Proc(job)),
            LooksChange::Clear => *looks = Looks::new(),
        }
    }
}

// One more at the end of a list, which moves where it is full.
fn push_with_room<T: Drop>(list: &mut Vec<T>, item: T, room: Vec<T>)
    requires empty { room.items ≡ [] }
    requires none { vec_len room ≡ 0 }
    requires room { length list.old.items < vec_capacity room }
    ensures { list.new.items ≡ list.old.items ++ item ∷ [] }
{
    if list.len() < list.capacity() {
        push_spare(list, item);
    } else {
        let full = replace(list, room);
        move_all(list, full);
        push_spare(list, item);
    }
}

// All items of a list come into an empty one with room.
fn move_all<T: Drop>(list: &mut Vec<T>, items: Vec<T>)
    requires empty { list.old.items ≡ [] }
    requires none { vec_len list.old ≡ 0 }
    requires room { length items.items < vec_capacity list.old }
    ensures items { list.new.items ≡ items.items }
    ensures room { vec_len list.new < vec_capacity list.new }
{
    for item in items {
        push_spare(list, item);
    }
}

// One more at the end of a list with room.
fn push_spare<T: Drop>(list: &mut Vec<T>, item: T)
    requires { vec_len list.old < vec_capacity list.old }
    ensures items { list.new.items ≡ list.old.items ++ item ∷ [] }
    ensures len { vec_len list.new ≡ vec_len list.old + 1 }
    ensures capacity { vec_capacity list.old ≤ vec_capacity list.new }
{
    list.push(item).unwrap();
}
