// What startds do.

ghost use Rattle.std.specs.Prelude.{◌≡◌, ◌+◌, ◌<◌, ◌≤◌, ◌^◌, length, slice_get, [], Err, Some, IfErr, IfOk, IfSome, IsSomeAnd, OnErr, OnOk};
ghost use Rattle.std.specs.Option.{option_copied};
ghost use Rattle.startd_core.specs.PreparedStartds.{startd_after};
ghost use Rattle.pool_rules.specs.Answers.{answer_of_startd};
ghost use Rattle.pool_parts.specs.Sizes.{mails_count};
ghost use Rattle.pool_parts.specs.declared.size.TheConstants.{MAX_BYTES};
ghost use Rattle.pool_tables.specs.declared.refusal.StepError.TheVariants as error;
ghost use Rattle.pool_rules.specs.Deeds.{at_rest, posts, rested, startd_acts, startd_answer};
ghost use Rattle.pool_rules.specs.Limits.{IsLimit, IsTooLarge, IsWithin};
ghost use Rattle.pool_steps.specs.Growing.{HasPlaces};
ghost use Rattle.pool_steps.specs.Ready.{IsStartdDeed};
ghost use Rattle.pool_rules.specs.Startds.{StartdDoes, StartdEnds, StartdReceives, ends_after, job_of_run, job_on, report_of, reports_in};
ghost use Rattle.pool_parts.specs.Answers.{kept_of};
ghost use Rattle.startd_core.specs.Sound.{IsSound};
ghost use Rattle.startd_core.specs.Startds.{StartdValue, after_end, after_mail, after_reboot, after_tick};

use crate::growing::{join, maybe_report};
use crate::limits::bytes_with;
use ad_eval::Judged;
use ad_value::{Copied, Memory};
use claim_id::{JobId, RunNo};
use pool_mail::{Ending, Mail};
use pool_parts::{Answer, Kept, Stepped};
use pool_state::PoolState;
use pool_tables::StepError;
use pool_view::EndReport;
use startd_core::{PreparedStartd, RunList, StartdAnswer};
use startd_slot::Slot;
use std::alloc::Global;
use std::collections::LinkedList;

/// What a startd is to do, what is kept of its answer, which runs have ended so, and how many bytes
/// of ads the pool has then, with all their memory.
pub(crate) struct StartdDeed {
    prepared: PreparedStartd,
    kept: Kept,
    reports: LinkedList<EndReport, Global>,
    bytes: u64,
}

impl Drop for StartdDeed {
    fn drop(self) {
        let StartdDeed {
            prepared: _prepared,
            kept: _kept,
            reports: _reports,
            bytes: _,
        } = self;
    }
}

impl StartdDeed {
    /// What was prepared is to be done, and perhaps a run has ended.
    fn new(
        alloc: Global,
        state: &PoolState,
        prepared: PreparedStartd,
        report: Option<EndReport>,
    ) -> Result<StartdDeed, StepError>
        ensures prepared { IfOk result (λ d. d.prepared ≡ prepared) }
        ensures kept { IfOk result
            (λ d. d.kept ≡ kept_of (answer_of_startd prepared.step.answer)) }
        ensures reports { IfOk result (λ d. d.reports ≡ reports_in report) }
        ensures places { IfOk result (λ d. HasPlaces state.now.reports d.reports) }
        ensures bytes { IfOk result
            (λ d. d.bytes ≡ state.now.counts.bytes + mails_count prepared.step.mails) }
        ensures limit { IfOk result (λ d. d.bytes ≤ MAX_BYTES) }
        ensures large { result ≡ Err error.Bytes
            → MAX_BYTES < state.now.counts.bytes + mails_count prepared.step.mails }
        ensures refused { IfErr result IsLimit }
    {
        let bytes = bytes_with(state.counts.bytes, prepared.step().mails.as_slice())?;
        let kept = keep_answer(alloc, &prepared.step().answer)?;
        let reports = maybe_report(alloc, &state.reports, report)?;
        Ok(StartdDeed {
            prepared,
            kept,
            reports,
            bytes,
        })
    }

    // How many mails it sends.
    fn mails(&self) -> usize
        ensures { result ≡ length self.now.prepared.step.mails }
    {
        self.prepared.step().mails.len()
    }

    // It is done by the startd of a machine, without memory.
    fn commit(self, machine: u16, state: &mut PoolState) -> Stepped
        requires room { length self.prepared.step.mails ≤ state.old.mails.spare }
        requires within { machine < length state.old.machines }
        requires sound { (v : StartdValue) → slice_get state.old.machines machine ≡ Some v
            → IsSound (startd_after self.prepared v) }
        requires kept { self.kept ≡ kept_of (answer_of_startd self.prepared.step.answer) }
        requires places { HasPlaces state.old.reports self.reports }
        requires bytes { self.bytes
            ≡ state.old.counts.bytes + mails_count self.prepared.step.mails }
        ensures pool { (v : StartdValue) → slice_get state.old.machines machine ≡ Some v
            → at_rest state.new ≡ startd_acts machine (startd_after self.prepared v)
            self.prepared.step self.reports state.old }
        ensures mails { rested state.new.mails
            ≡ posts self.prepared.step.mails state.old.mails }
        ensures bytes { state.new.counts.bytes ≡ self.bytes }
        ensures answer { result ≡ startd_answer self.prepared.step }
    {
        let StartdDeed {
            prepared,
            kept,
            reports,
            bytes,
        } = self;
        let step = state.machines.commit(machine, prepared);
        let (mails, answer) = step.into_parts();
        state.mails.put_all(mails);
        state.counts.bytes = bytes;
        join(&mut state.reports, reports);
        Stepped {
            answer: answer_of(answer),
            kept,
        }
    }
}

// What a startd's machine is to do.
fn answer_of(answer: StartdAnswer) -> Answer
    ensures { result ≡ answer_of_startd answer }
{
    match answer {
        StartdAnswer::Done => Answer::Done,
        StartdAnswer::Launch { permit } => Answer::Launch { permit },
        StartdAnswer::Kill { runs } => Answer::Kill { runs },
    }
}

// The same for the history.
fn keep_answer(alloc: Global, answer: &StartdAnswer) -> Result<Kept, Memory>
    ensures { IfOk result (λ kept. kept ≡ kept_of (answer_of_startd answer.now)) }
{
    match answer {
        StartdAnswer::Done => Ok(Kept::Done),
        StartdAnswer::Launch { permit } => Ok(Kept::Launch {
            run: permit.run(),
            job: permit.job(),
            what: permit.what().copy(alloc)?,
        }),
        StartdAnswer::Kill { runs } => Ok(Kept::Kill {
            runs: copied_runs(alloc, runs.as_slice())?,
        }),
    }
}

// An equal list of runs.
fn copied_runs(alloc: Global, runs: &[RunNo]) -> Result<RunList, Memory>
    ensures { IfOk result (λ copied. copied ≡ runs.now) }
{
    let mut copied = RunList::new(alloc);
    for run in runs {
        copied.push(*run)?;
    }
    Ok(copied)
}

// What is ready is done by the startd of a machine.
fn take_deed(state: &mut PoolState, machine: u16, deed: StartdDeed) -> Result<Stepped, Memory>
    requires within { machine < length state.old.machines }
    requires sound { (v : StartdValue) → slice_get state.old.machines machine ≡ Some v
        → IsSound (startd_after deed.prepared v) }
    requires kept { deed.kept ≡ kept_of (answer_of_startd deed.prepared.step.answer) }
    requires places { HasPlaces state.old.reports deed.reports }
    requires bytes { deed.bytes ≡ state.old.counts.bytes + mails_count deed.prepared.step.mails }
    ensures pool { OnOk result ((v : StartdValue)
        → slice_get state.old.machines machine ≡ Some v → at_rest state.new
        ≡ startd_acts machine (startd_after deed.prepared v) deed.prepared.step deed.reports
        state.old) }
    ensures mails { OnOk result
        (rested state.new.mails ≡ posts deed.prepared.step.mails state.old.mails) }
    ensures bytes { OnOk result (state.new.counts.bytes ≡ deed.bytes) }
    ensures answer { IfOk result (λ r. r ≡ startd_answer deed.prepared.step) }
    ensures kept { OnErr result (at_rest state.new ≡ at_rest state.old) }
{
    state.mails.room(deed.mails())?;
    Ok(deed.commit(machine, state))
}

// What time is to make of the startd of a machine.
fn ready_tick(
    alloc: Global,
    state: &PoolState,
    machine: u16,
    reading: u64,
) -> Result<StartdDeed, StepError>
    ensures ready { IfOk result (λ d. IsSomeAnd (slice_get state.now.machines machine)
        (λ v. IsStartdDeed (after_tick v reading) [] d v)) }
    ensures within { OnOk result (machine < length state.now.machines) }
    ensures sound { IfOk result (λ d. (v : StartdValue)
        → slice_get state.now.machines machine ≡ Some v → IsSound (startd_after d.prepared v)) }
    ensures kept { IfOk result
        (λ d. d.kept ≡ kept_of (answer_of_startd d.prepared.step.answer)) }
    ensures places { IfOk result (λ d. HasPlaces state.now.reports d.reports) }
    ensures bytes { IfOk result
        (λ d. d.bytes ≡ state.now.counts.bytes + mails_count d.prepared.step.mails) }
    ensures limit { IfOk result (λ d. d.bytes ≤ MAX_BYTES) }
    ensures large { result ≡ Err error.Bytes
        → IsSomeAnd (slice_get state.now.machines machine) (λ v. MAX_BYTES
        < state.now.counts.bytes + mails_count (after_tick v reading).step.mails) }
    ensures refused { IfErr result IsLimit }
{
    let Some(startd) = state.machines.get(machine) else {
        return Err(StepError::Memory);
    };
    let prepared = startd.prepare_tick(alloc, reading)?;
    StartdDeed::new(alloc, state, prepared, None)
}

/// Time passes for the startd of a machine. Bytes where the pool would have more bytes of ads than
/// it may; Memory too where there is no such machine; after an error the pool is as it was.
/// Computes as `Startd::tick`, and in O(size of what is sent and answered).
pub fn tick_startd(
    alloc: Global,
    state: &mut PoolState,
    machine: u16,
    reading: u64,
) -> Result<Stepped, StepError>
    ensures ticked { IfOk result (StartdDoes machine (λ v. after_tick v reading)
        (at_rest state.old) (at_rest state.new)) }
    ensures within { OnOk result (IsWithin state.new) }
    ensures large { result ≡ Err error.Bytes
        → IsTooLarge (StartdDoes machine (λ v. after_tick v reading) (at_rest state.old)) }
    ensures refused { IfErr result IsLimit }
    ensures kept { OnErr result (at_rest state.new ≡ at_rest state.old) }
{
    let deed = ready_tick(alloc, state, machine, reading)?;
    let stepped = take_deed(state, machine, deed)?;
    Ok(stepped)
}

// What the mail of a number is to make of the startd of a machine.
fn ready_receipt(
    alloc: Global,
    state: &PoolState,
    machine: u16,
    index: u64,
    judged: Option<&Judged>,
    reading: u64,
) -> Result<StartdDeed, StepError>
    ensures ready { IfOk result (λ d. IsSomeAnd (slice_get state.now.mails.sent index) (λ s.
        IsSomeAnd (slice_get state.now.machines machine) (λ v. IsStartdDeed
        (after_mail v s.mail (option_copied judged.entry) reading) [] d v))) }
    ensures within { OnOk result (machine < length state.now.machines) }
    ensures sound { IfOk result (λ d. (v : StartdValue)
        → slice_get state.now.machines machine ≡ Some v → IsSound (startd_after d.prepared v)) }
    ensures kept { IfOk result
        (λ d. d.kept ≡ kept_of (answer_of_startd d.prepared.step.answer)) }
    ensures places { IfOk result (λ d. HasPlaces state.now.reports d.reports) }
    ensures bytes { IfOk result
        (λ d. d.bytes ≡ state.now.counts.bytes + mails_count d.prepared.step.mails) }
    ensures limit { IfOk result (λ d. d.bytes ≤ MAX_BYTES) }
    ensures large { result ≡ Err error.Bytes
        → IsSomeAnd (slice_get state.now.mails.sent index) (λ s.
        IsSomeAnd (slice_get state.now.machines machine) (λ v. MAX_BYTES
        < state.now.counts.bytes
        + mails_count (after_mail v s.mail (option_copied judged.entry) reading).step.mails)) }
    ensures refused { IfErr result IsLimit }
{
    let (Some(startd), Some(sent)) = (state.machines.get(machine), state.mails.get(index)) else {
        return Err(StepError::Memory);
    };
    let judged = copied_match(alloc, judged)?;
    let prepared = startd.prepare_receive(alloc, &sent.mail, judged, reading)?;
    StartdDeed::new(alloc, state, prepared, None)
}

/// The startd of a machine receives the mail of a number. `judged` is what `judge` gives of the
/// mail's ad and the slot's. Bytes where the pool would have more bytes of ads than it may; Memory
/// too where there is no such machine or mail; after an error the pool is as it was. Computes as
/// `Startd::receive`, and in O(size of what is sent and answered, and of the match).
pub fn receive_by_startd(
    alloc: Global,
    state: &mut PoolState,
    machine: u16,
    index: u64,
    judged: Option<&Judged>,
    reading: u64,
) -> Result<Stepped, StepError>
    requires { IfSome (slice_get state.old.mails.sent index) (λ s. s.received + 1 < 2 ^ 64) }
    ensures received { IfOk result (λ r. IsSomeAnd (slice_get state.old.mails.sent index) (λ s.
        StartdReceives machine index
        (λ v. after_mail v s.mail (option_copied judged.entry) reading)
        (at_rest state.old) (at_rest state.new) r)) }
    ensures within { OnOk result (IsWithin state.new) }
    ensures large { result ≡ Err error.Bytes → IsTooLarge (λ new r.
        IsSomeAnd (slice_get state.old.mails.sent index) (λ s. StartdReceives machine index
        (λ v. after_mail v s.mail (option_copied judged.entry) reading)
        (at_rest state.old) new r)) }
    ensures refused { IfErr result IsLimit }
    ensures kept { OnErr result (at_rest state.new ≡ at_rest state.old) }
{
    let deed = ready_receipt(alloc, state, machine, index, judged, reading)?;
    let stepped = take_deed(state, machine, deed)?;
    state.mails.receive(index);
    Ok(stepped)
}

fn copied_match(alloc: Global, judged: Option<&Judged>) -> Result<Option<Judged>, Memory>
    ensures { IfOk result (λ copied. copied ≡ option_copied judged.entry) }
{
    match judged {
        Some(judged) => Ok(Some(judged.copy(alloc)?)),
        None => Ok(None),
    }
}

// What a boot is to make of the startd of a machine.
fn ready_reboot(
    alloc: Global,
    state: &PoolState,
    machine: u16,
    reading: u64,
) -> Result<StartdDeed, StepError>
    ensures ready { IfOk result (λ d. IsSomeAnd (slice_get state.now.machines machine)
        (λ v. IsStartdDeed (after_reboot v reading) [] d v)) }
    ensures within { OnOk result (machine < length state.now.machines) }
    ensures sound { IfOk result (λ d. (v : StartdValue)
        → slice_get state.now.machines machine ≡ Some v → IsSound (startd_after d.prepared v)) }
    ensures kept { IfOk result
        (λ d. d.kept ≡ kept_of (answer_of_startd d.prepared.step.answer)) }
    ensures places { IfOk result (λ d. HasPlaces state.now.reports d.reports) }
    ensures bytes { IfOk result
        (λ d. d.bytes ≡ state.now.counts.bytes + mails_count d.prepared.step.mails) }
    ensures limit { IfOk result (λ d. d.bytes ≤ MAX_BYTES) }
    ensures large { result ≡ Err error.Bytes
        → IsSomeAnd (slice_get state.now.machines machine) (λ v. MAX_BYTES
        < state.now.counts.bytes + mails_count (after_reboot v reading).step.mails) }
    ensures refused { IfErr result IsLimit }
{
    let Some(startd) = state.machines.get(machine) else {
        return Err(StepError::Memory);
    };
    let prepared = startd.prepare_reboot(alloc, reading)?;
    StartdDeed::new(alloc, state, prepared, None)
}

/// The machine has booted, and its startd comes back. Bytes where the pool would have more bytes of
/// ads than it may; Memory too where there is no such machine; after an error the pool is as it
/// was. Computes as `Startd::reboot`, and in O(size of what is sent and answered).
pub fn reboot_startd(
    alloc: Global,
    state: &mut PoolState,
    machine: u16,
    reading: u64,
) -> Result<Stepped, StepError>
    ensures back { IfOk result (StartdDoes machine (λ v. after_reboot v reading)
        (at_rest state.old) (at_rest state.new)) }
    ensures within { OnOk result (IsWithin state.new) }
    ensures large { result ≡ Err error.Bytes
        → IsTooLarge (StartdDoes machine (λ v. after_reboot v reading) (at_rest state.old)) }
    ensures refused { IfErr result IsLimit }
    ensures kept { OnErr result (at_rest state.new ≡ at_rest state.old) }
{
    let deed = ready_reboot(alloc, state, machine, reading)?;
    let stepped = take_deed(state, machine, deed)?;
    Ok(stepped)
}

// What the end of a run is to make of the startd of a machine.
fn ready_end(
    alloc: Global,
    state: &PoolState,
    machine: u16,
    ending: &Ending,
    reading: u64,
) -> Result<StartdDeed, StepError>
    ensures ready { IfOk result (λ d. IsSomeAnd (slice_get state.now.machines machine)
        (λ v. IsStartdDeed (after_end v ending.now reading)
        (ends_after ending.now.run v (after_end v ending.now reading)) d v)) }
    ensures within { OnOk result (machine < length state.now.machines) }
    ensures sound { IfOk result (λ d. (v : StartdValue)
        → slice_get state.now.machines machine ≡ Some v → IsSound (startd_after d.prepared v)) }
    ensures kept { IfOk result
        (λ d. d.kept ≡ kept_of (answer_of_startd d.prepared.step.answer)) }
    ensures places { IfOk result (λ d. HasPlaces state.now.reports d.reports) }
    ensures bytes { IfOk result
        (λ d. d.bytes ≡ state.now.counts.bytes + mails_count d.prepared.step.mails) }
    ensures limit { IfOk result (λ d. d.bytes ≤ MAX_BYTES) }
    ensures large { result ≡ Err error.Bytes
        → IsSomeAnd (slice_get state.now.machines machine) (λ v. MAX_BYTES
        < state.now.counts.bytes + mails_count (after_end v ending.now reading).step.mails) }
    ensures refused { IfErr result IsLimit }
{
    let Some(startd) = state.machines.get(machine) else {
        return Err(StepError::Memory);
    };
    let prepared = startd.prepare_ended(alloc, ending, reading)?;
    let job = job_of_run(startd.slots(), ending.run);
    let report = report_of(job, prepared.step().mails.as_slice());
    StartdDeed::new(alloc, state, prepared, report)
}

/// The program of a run of a machine has ended. Bytes where the pool would have more bytes of ads
/// than it may; Memory too where there is no such machine; after an error the pool is as it was.
/// Computes as `Startd::ended`, and in O(slots of the machine + size of what is sent and answered).
pub fn end_run(
    alloc: Global,
    state: &mut PoolState,
    machine: u16,
    ending: &Ending,
    reading: u64,
) -> Result<Stepped, StepError>
    ensures ended { IfOk result (StartdEnds machine ending.now.run
        (λ v. after_end v ending.now reading) (at_rest state.old) (at_rest state.new)) }
    ensures within { OnOk result (IsWithin state.new) }
    ensures large { result ≡ Err error.Bytes
        → IsTooLarge (StartdEnds machine ending.now.run
        (λ v. after_end v ending.now reading) (at_rest state.old)) }
    ensures refused { IfErr result IsLimit }
    ensures kept { OnErr result (at_rest state.new ≡ at_rest state.old) }
{
    let deed = ready_end(alloc, state, machine, ending, reading)?;
    let stepped = take_deed(state, machine, deed)?;
    Ok(stepped)
}

// The job of a run that is on a slot.
fn job_of_run(slots: &[Slot], run: RunNo) -> Option<JobId>
    ensures { result ≡ job_of_run run slots.now }
{
    for slot in slots {
        if slot.state.runs(run) {
            return job_on(slot);
        }
    }
    None
}

fn job_on(slot: &Slot) -> Option<JobId>
    ensures { result ≡ job_on slot.now }
{
    let running = slot.state.running()?;
    Some(running.job)
}

// The end of the job's run that the first of mails says.
fn report_of(job: Option<JobId>, mails: &[Mail]) -> Option<EndReport>
    ensures { result ≡ report_of job mails.now }
{
    match (job, mails.first()) {
        (Some(job), Some(Mail::Ended { run, how })) => Some(EndReport {
            run: *run,
            job,
            how: *how,
        }),
        _ => None,
    }
}
