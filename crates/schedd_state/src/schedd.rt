// The schedd as a value, and what may be asked of it.

ghost use Rattle.std.specs.Prelude.{◌≡◌, ◌∷◌, [], None, Some, true, IfOk, IfSome, slice_get};
ghost use Rattle.queue_tx.specs.declared.key.Key.TheVariants.{Proc};
ghost use Rattle.schedd_plan.specs.JobPlaces.{job_place};
ghost use Rattle.schedd_state.specs.declared.change.LeftChange.TheVariants as of_left;
ghost use Rattle.schedd_state.specs.declared.change.LooksChange.TheVariants as of_looks;
ghost use Rattle.schedd_state.specs.DueChecks.{is_check_due, is_unchecked, with_new, IsFirstDue, IsPassed, Passes};
ghost use Rattle.schedd_state.specs.DueLines.{comes_first, is_act, is_due, line_of_claim, line_of_claims, line_of_place, tick_line};
ghost use Rattle.schedd_state.specs.Looks.{IsOldest};
ghost use Rattle.schedd_state.specs.PreparedSchedds.{CanPut, HasClaimRoom, claims_after, runs_after, schedd_after};
ghost use Rattle.schedd_state.specs.Schedds.{nothing_done, plans, says, crashed, IsOpened, engages_job};

use crate::answer::ScheddStep;
use crate::change::{ClaimsChange, LeftChange, LooksChange, RunsChange, ScheddChange};
use crate::due_checks::{first_due, job_of_key, passed_on};
use crate::looks::Looks;
use crate::prepared::PreparedSchedd;
use crate::run_numbers::first_run;
use crate::search::left_jobs;
use ad_value::{Copied, Memory};
use claim_id::JobId;
use pool_mail::{Mail, Settings};
use queue_tx::{Key, Queue, has_periodic};
use schedd_plan::{
    ClaimLine, JobPlace, JobPlan, KeptClaim, KeptRun, LeftJobs, RunLine, TickLine, ad_of,
    claim_line, due_claim, due_run, engages, is_after, is_before, job_place, run_line,
};
use std::alloc::Global;
use std::marker::Model;

/// The schedd: its claims, the runs under them, the jobs that an earlier boot of the pool left, and
/// what waits to be logged. Contracts see it as a `ScheddValue`.
pub struct Schedd {
    settings: Settings,
    next_run: u64,
    left: LeftJobs,
    claims: Vec<KeptClaim>,
    runs: Vec<KeptRun>,
    checked: Looks,
    passed: Option<Key>,
    waiting: Option<JobPlan>,
}

impl Drop for Schedd {
    fn drop(self) {
        let Schedd {
            settings: _,
            next_run: _,
            left: _left,
            claims: _claims,
            runs: _runs,
            checked: _checked,
            passed: _,
            waiting: _,
        } = self;
    }
}

impl Model for Schedd {
    ghost use Rattle.std.specs.Coded.{codes};
    ghost use Rattle.queue_tx.specs.OperationCode.{key_code};
    ghost use Rattle.pool_mail.specs.contracts.settings.Settings as of_settings;
    ghost use Rattle.schedd_plan.specs.contracts.plan.JobPlan as of_plan;
    ghost use Rattle.claim_id.specs.contracts.numbers.JobId as of_job;
    ghost use Rattle.schedd_plan.specs.contracts.claims.KeptClaim as of_claim;
    ghost use Rattle.schedd_plan.specs.contracts.runs.KeptRun as of_run;
    ghost use Rattle.schedd_state.specs.Schedds.{ScheddValue};

    ghost Value = { ScheddValue };

    ghost coded = { Prim.hlevel (
      codes,
      key_code,
      of_settings.the_row.coded,
      of_plan.the_row.coded,
      of_job.the_row.coded,
      of_claim.the_row.coded,
      of_run.the_row.coded,
    ) };

    ghost view = { λ s. record {
      settings = s.settings;
      next_run = s.next_run;
      left = s.left;
      claims = s.claims.items;
      runs = s.runs.items;
      checked = s.checked;
      passed = s.passed;
      waiting = s.waiting;
    } };
}

impl Copied for Schedd {
    /// An equal schedd, whose claims' ads share their attributes. Computes in O(claims + runs +
    /// jobs left + jobs looked at), and a byte for each attribute of the claims' ads.
    fn copy(&self, alloc: Global) -> Result<Schedd, Memory> {
        Ok(Schedd {
            settings: self.settings,
            next_run: self.next_run,
            left: self.left.copy(alloc)?,
            claims: copy_items(alloc, self.claims.as_slice())?,
            runs: Vec::from_slice(alloc, self.runs.as_slice())?,
            checked: self.checked.copy(alloc)?,
            passed: self.passed,
            waiting: self.waiting,
        })
    }
}

// A list of equal items.
fn copy_items<T: Copied>(alloc: Global, items: &[T]) -> Result<Vec<T>, Memory>
    ensures { IfOk result (λ copied. copied.items ≡ items.now) }
{
    let mut list = Vec::new(alloc);
    for item in items {
        list.push(item.copy(alloc)?)?;
    }
    Ok(list)
}

impl Schedd {
    /// The schedd of a pool that opens with a queue. Computes in O(jobs under a claim times log
    /// jobs).
    pub fn new(alloc: Global, queue: &Queue, settings: Settings) -> Result<Schedd, Memory>
        ensures { IfOk result (λ s. IsOpened queue.now settings s) }
    {
        Ok(Schedd {
            settings,
            next_run: first_run(queue),
            left: left_jobs(alloc, queue)?,
            claims: Vec::new(alloc),
            runs: Vec::new(alloc),
            checked: Looks::new(),
            passed: None,
            waiting: None,
        })
    }

    /// The claims, in their order. Computes in O(1).
    pub fn claims(&self) -> &[KeptClaim]
        ensures { result.now ≡ self.now.claims }
    {
        self.claims.as_slice()
    }

    /// The jobs under runs of this boot of the pool, in order of the jobs. Computes in O(1).
    pub fn runs(&self) -> &[KeptRun]
        ensures { result.now ≡ self.now.runs }
    {
        self.runs.as_slice()
    }

    /// The jobs that an earlier boot of the pool left, in order. Computes in O(1).
    pub fn left(&self) -> &LeftJobs
        ensures { result.now ≡ self.now.left }
    {
        &self.left
    }

    /// The number of the run that is granted next. Computes in O(1).
    pub fn next_run(&self) -> u64
        ensures { result ≡ self.now.next_run }
    {
        self.next_run
    }

    /// The seconds that the pool is set to. Computes in O(1).
    pub fn settings(&self) -> &Settings
        ensures { result.now ≡ self.now.settings }
    {
        &self.settings
    }

    /// What is to be logged, and waits for it. Computes in O(1).
    pub fn waiting(&self) -> Option<JobPlan>
        ensures { result ≡ self.now.waiting }
    {
        self.waiting
    }

    /// Whether a claim that is asked for or ready names the job. Computes in O(claims).
    pub fn engages(&self, job: JobId) -> bool
        ensures { result ≡ engages_job self.now job }
    {
        engages(&self.claims, job)
    }

    /// How a job stands. Computes in O(log jobs left + log jobs), without memory.
    pub fn place(&self, queue: &Queue, job: JobId) -> JobPlace
        ensures { result ≡ job_place queue.now self.now.left job }
    {
        job_place(queue, &self.left, job)
    }

    // ---- ticks

    /// The first line of the tick that is due. Computes as `due`.
    #[tactic(auto, unfolding(crate::specs::DueLines::tick_line))]
    pub fn tick_line(&self, queue: &Queue, reading: u64) -> TickLine
        ensures { result ≡ tick_line self.now queue.now reading }
    {
        let run = due_run(&self.runs, queue, &self.settings, reading);
        match (self.left.first(), run) {
            (Some(job), Some(place)) => {
                if self.comes_first(job, place) {
                    TickLine::Left { job }
                } else {
                    self.line_of_run(queue, place, reading)
                }
            }
            (Some(job), None) => TickLine::Left { job },
            (None, Some(place)) => self.line_of_run(queue, place, reading),
            (None, None) => self.line_of_claims(queue, reading),
        }
    }

    // Whether a job comes before that of the run of a place.
    fn comes_first(&self, job: JobId, place: usize) -> bool
        ensures { result ≡ comes_first job (slice_get self.now.runs place) }
    {
        match self.runs.get(place) {
            Some(run) => is_before(job, run.job),
            None => true,
        }
    }

    fn line_of_run(&self, queue: &Queue, place: usize, reading: u64) -> TickLine
        ensures { result ≡ line_of_place self.now queue.now place reading }
    {
        match self.runs.get(place) {
            Some(run) => match run_line(run, queue, &self.settings, reading) {
                RunLine::Past => TickLine::Past { place },
                RunLine::Lengthen => TickLine::Lengthen { place },
                RunLine::Nothing => TickLine::Nothing,
            },
            None => TickLine::Nothing,
        }
    }

    fn line_of_claims(&self, queue: &Queue, reading: u64) -> TickLine
        ensures { result ≡ line_of_claims self.now queue.now reading }
    {
        match due_claim(&self.claims, &self.runs, queue, &self.settings, reading) {
            Some(place) => self.line_of_claim(queue, place, reading),
            None => TickLine::Nothing,
        }
    }

    fn line_of_claim(&self, queue: &Queue, place: usize, reading: u64) -> TickLine
        ensures { result ≡ line_of_claim self.now queue.now place reading }
    {
        match self.claims.get(place) {
            Some(claim) => match claim_line(claim, &self.runs, queue, &self.settings, reading) {
                ClaimLine::Regrant => TickLine::Regrant {
                    place,
                    job: claim.job,
                },
                ClaimLine::Seek => TickLine::Seek { place },
                ClaimLine::GiveUp => TickLine::GiveUp { place },
                ClaimLine::Nothing => TickLine::Nothing,
            },
            None => TickLine::Nothing,
        }
    }

    /// Whether a tick is due at a reading. Computes in O((runs + claims) times log jobs + claims
    /// times runs), without memory.
    pub fn due(&self, queue: &Queue, reading: u64) -> bool
        ensures { result ≡ is_due self.now queue.now reading }
    {
        is_act(self.tick_line(queue, reading))
    }

    // ---- periodic expressions

    /// Whether a look at the periodic expressions of a job is due: where it has one, the seconds of
    /// `periodic_interval` after the last look, or at once where there was none since the pool
    /// opened or the schedd came back. Computes in O(log jobs), without memory.
    pub fn is_check_due(&self, queue: &Queue, job: JobId, reading: u64) -> bool
        ensures { result ≡ is_check_due self.now queue.now job reading }
    {
        match ad_of(queue, job) {
            Some(ad) => has_periodic(ad) && self.is_unchecked(job, reading),
            None => false,
        }
    }

    fn is_unchecked(&self, job: JobId, reading: u64) -> bool
        ensures { result ≡ is_unchecked self.now job reading }
    {
        match self.checked.get(&Key::Proc(job)) {
            Some(last) => is_after(*last, self.settings.periodic_interval, reading),
            None => true,
        }
    }

    /// The job at whose periodic expressions the last look is the longest ago, and its reading;
    /// none where none was looked at since the pool opened or the schedd came back. So of the jobs
    /// that were looked at it is the first whose look is due again. Computes in O(log jobs),
    /// without memory.
    pub fn oldest_look(&self) -> Option<(Key, u64)>
        ensures { IsOldest self.now.checked result }
    {
        self.checked.oldest()
    }

    /// The job whose check is due first: one that was never looked at since the pool opened or the
    /// schedd came back, else the one that was looked at the longest ago; none where no check is
    /// due. That it is the first, and that none is due, holds where the jobs up to the mark were
    /// looked at (`IsPassed`; schedd_core's `laws::the_mark_stands`). Computes in O(log jobs), and
    /// the same again for each job above the mark that was looked at before one that comes before
    /// it, without memory.
    pub fn first_check(&self, queue: &Queue, reading: u64) -> Option<JobId>
        ensures due { IfSome result
            (λ job. is_check_due self.now queue.now job reading ≡ true) }
        ensures first { IsPassed queue.now self.now
            → IsFirstDue self.now queue.now reading result }
    {
        let seconds = self.settings.periodic_interval;
        job_of_key(first_due(&self.checked, queue, self.passed, seconds, reading))
    }

    /// Moves the mark up to which all jobs were looked at on, over those that were looked at since.
    /// To be called after each look, so that `first_check` is cheap; passes over each look once.
    /// The queue is the one as logged. Computes in O(log jobs) for each, without memory.
    pub fn move_mark(&mut self, queue: &Queue)
        ensures schedd { self.new ≡ record self.old { passed = self.new.passed } }
        ensures passes { Passes queue.now self.old.checked self.old.passed self.new.passed }
    {
        self.passed = passed_on(&self.checked, queue, self.passed);
    }

    /// Jobs came into the queue, of which this one comes first: the mark goes back where it is not
    /// below them. To be called once a submission is logged. Computes in O(1).
    pub fn note_new(&mut self, job: JobId)
        ensures { self.new ≡ with_new (Proc job) self.old }
    {
        if let Some(passed) = self.passed {
            if passed >= Key::Proc(job) {
                self.passed = None;
            }
        }
    }

    // ---- what is prepared

    // What becomes of the claims and the runs, and what waits then.
    fn change(
        &self,
        claims: ClaimsChange,
        runs: RunsChange,
        waiting: Option<JobPlan>,
    ) -> ScheddChange
        ensures { result ≡ record {
          next_run = self.now.next_run;
          left = of_left.Same;
          claims = claims;
          runs = runs;
          looks = of_looks.Same;
          waiting = waiting;
        } }
    {
        ScheddChange {
            next_run: self.next_run,
            left: LeftChange::Same,
            claims,
            runs,
            looks: LooksChange::Same,
            waiting,
        }
    }

    /// Nothing happens. Computes in O(1).
    pub fn nothing(&self, alloc: Global) -> PreparedSchedd
        ensures schedd { schedd_after result self.now ≡ self.now }
        ensures step { result.step ≡ nothing_done }
        ensures room { HasClaimRoom result self.now }
    {
        self.quiet(alloc, ClaimsChange::Same, RunsChange::Same)
    }

    /// Claims and runs change, and nothing is sent or is to be logged. Computes in O(1).
    pub fn quiet(&self, alloc: Global, claims: ClaimsChange, runs: RunsChange) -> PreparedSchedd
        requires { CanPut claims self.now.claims }
        ensures schedd { schedd_after result self.now ≡ record self.now {
          claims = claims_after claims self.now.claims;
          runs = runs_after runs self.now.runs;
        } }
        ensures step { result.step ≡ nothing_done }
        ensures room { HasClaimRoom result self.now }
    {
        PreparedSchedd {
            change: self.change(claims, runs, self.waiting),
            step: ScheddStep::nothing(alloc),
        }
    }

    /// A plan is to be logged, and nothing else changes. Computes in O(1).
    pub fn wait_for(&self, alloc: Global, plan: JobPlan) -> PreparedSchedd
        ensures schedd { schedd_after result self.now ≡ record self.now { waiting = Some plan } }
        ensures step { result.step ≡ plans plan }
        ensures room { HasClaimRoom result self.now }
    {
        self.wait_with(alloc, ClaimsChange::Same, RunsChange::Same, plan)
    }

    /// Claims and runs change, and a plan is to be logged. Computes in O(1).
    pub fn wait_with(
        &self,
        alloc: Global,
        claims: ClaimsChange,
        runs: RunsChange,
        plan: JobPlan,
    ) -> PreparedSchedd
        requires { CanPut claims self.now.claims }
        ensures schedd { schedd_after result self.now ≡ record self.now {
          claims = claims_after claims self.now.claims;
          runs = runs_after runs self.now.runs;
          waiting = Some plan;
        } }
        ensures step { result.step ≡ plans plan }
        ensures room { HasClaimRoom result self.now }
    {
        PreparedSchedd {
            change: self.change(claims, runs, Some(plan)),
            step: ScheddStep::plan(alloc, plan),
        }
    }

    /// Claims change, and a mail is sent. Computes in O(1).
    pub fn send(
        &self,
        alloc: Global,
        claims: ClaimsChange,
        mail: Mail,
    ) -> Result<PreparedSchedd, Memory>
        requires { CanPut claims self.now.claims }
        ensures schedd { IfOk result (λ p. schedd_after p self.now
            ≡ record self.now { claims = claims_after claims self.now.claims }) }
        ensures step { IfOk result (λ p. p.step ≡ says (mail ∷ [])) }
        ensures room { IfOk result (λ p. HasClaimRoom p self.now) }
    {
        Ok(PreparedSchedd {
            step: ScheddStep::mail(alloc, mail)?,
            change: self.change(claims, RunsChange::Same, self.waiting),
        })
    }

    // ---- crashes

    /// The schedd crashes: its claims are lost, and no job is engaged. What else it keeps is for
    /// schedd_core's `reopen`. Computes in O(claims), without memory.
    pub fn crash(&mut self)
        ensures { self.new ≡ crashed self.old }
    {
        self.claims.clear();
    }

    // ---- what was prepared

    /// What was prepared happens, without memory, which can't fail; what is sent, and is to be
    /// logged. Computes in O(claims + runs + log jobs left + log jobs), and where the schedd comes
    /// back in O(jobs left + jobs looked at) more, which are dropped.
    pub fn commit(&mut self, prepared: PreparedSchedd) -> ScheddStep
        requires { HasClaimRoom prepared self.old }
        ensures schedd { self.new ≡ schedd_after prepared self.old }
        ensures step { result ≡ prepared.step }
    {
        let (change, step) = prepared.into_parts();
        let ScheddChange {
            next_run,
            left,
            claims,
            runs,
            looks,
            waiting,
        } = change;
        self.next_run = next_run;
        left.commit(&mut self.left);
        claims.commit(&mut self.claims);
        runs.commit(&mut self.runs);
        self.passed = looks.mark(self.passed);
        looks.commit(&mut self.checked);
        self.waiting = waiting;
        step
    }
}

fn is_act(line: TickLine) -> bool
    ensures { result ≡ is_act line }
{
    match line {
        TickLine::Nothing => false,
        _ => true,
    }
}
