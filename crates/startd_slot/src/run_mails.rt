// A run is started, kept alive and stopped.

ghost use Rattle.std.specs.Prelude.{◌≡◌, ◌∷◌, ◌++◌, [], IfOk};
ghost use Rattle.std.specs.Option.{option_copied};
ghost use Rattle.job_launch.specs.Launches.{launch_of};
ghost use Rattle.pool_mail.specs.declared.mail.Mail.TheVariants as mail;
ghost use Rattle.startd_slot.specs.ActivateTable.{activate_row, claim_row, free_row, run_denied, burned, begun, gone_where, after_activate_row, after_activate};
ghost use Rattle.startd_slot.specs.Reactions.{becomes};
ghost use Rattle.startd_slot.specs.RunTable.{known_run, known_by_claim, unheld_run, ended_or_other, after_word_of, after_alive_of, after_alive, after_stop_of, after_stop};

use crate::held::{Held, Running};
use crate::reaction::{Reaction, Task};
use crate::slot::SlotState;
use ad_eval::Judged;
use ad_tree::Ad;
use ad_value::Memory;
use claim_id::{Cue, JobId, RunNo};
use job_launch::launch_of;
use pool_mail::{How, Mail, Why};
use std::alloc::Global;

/// What an Activate says, but for its ad.
#[derive(Clone, Copy)]
pub(crate) struct Activation {
    pub run: RunNo,
    pub job: JobId,
    pub until: u64,
}

/// What becomes of an Activate.
#[derive(Clone, Copy)]
pub(crate) enum ActivateRow {
    NotHeld { spent: bool },
    Spent { last: u64 },
    Occupied { run: RunNo },
    Past,
    NotMatched,
    Starts,
}

pub(crate) fn activate_row(
    state: &SlotState,
    boot: u64,
    asked: Activation,
    matched: bool,
    reading: u64,
) -> ActivateRow
    ensures { result ≡ activate_row state.now boot asked matched reading }
{
    let spent = state.is_spent(boot, asked.run);
    claim_row(
        state.held_of(asked.run.claim),
        spent,
        asked,
        matched,
        reading,
    )
}

fn claim_row(
    held: Option<&Held>,
    spent: bool,
    asked: Activation,
    matched: bool,
    reading: u64,
) -> ActivateRow
    ensures { result ≡ claim_row (option_copied held.entry) spent asked matched reading }
{
    let Some(held) = held else {
        return ActivateRow::NotHeld { spent };
    };
    if asked.run.number <= held.last {
        return ActivateRow::Spent { last: held.last };
    }
    match &held.running {
        Some(running) => ActivateRow::Occupied { run: running.run },
        None => free_row(asked, matched, reading),
    }
}

fn free_row(asked: Activation, matched: bool, reading: u64) -> ActivateRow
    ensures { result ≡ free_row asked matched reading }
{
    if asked.until <= reading {
        ActivateRow::Past
    } else if !matched {
        ActivateRow::NotMatched
    } else {
        ActivateRow::Starts
    }
}

/// A run is to start, by a match of its job's ad and the slot's.
pub(crate) fn activate(
    alloc: Global,
    state: &SlotState,
    boot: u64,
    asked: Activation,
    ad: &Ad,
    judged: Option<Judged>,
    reading: u64,
) -> Result<Reaction, Memory>
    ensures { IfOk result (λ done.
        done ≡ after_activate boot asked ad.now judged reading state.now) }
{
    let row = activate_row(state, boot, asked, judged.is_some(), reading);
    let mut done = Reaction::none(alloc, state)?;
    done.state.hear_of(asked.run.claim, reading);
    done.take_activate(alloc, row, asked, ad, judged, reading)?;
    Ok(done)
}

impl Reaction {
    // Of a slot with which nothing was done yet.
    fn take_activate(
        &mut self,
        alloc: Global,
        row: ActivateRow,
        asked: Activation,
        ad: &Ad,
        judged: Option<Judged>,
        reading: u64,
    ) -> Result<(), Memory>
        requires { self.old ≡ becomes self.old.state }
        ensures { IfOk result (λ _. self.new
            ≡ after_activate_row row asked (launch_of ad.now) judged reading self.old.state) }
    {
        match row {
            ActivateRow::NotHeld { spent } => {
                self.send(denied(asked, Why::NoSuchClaim))?;
                self.say_gone_where(spent, asked.run)
            }
            ActivateRow::Spent { last } => {
                let number = asked.run.number;
                self.send(denied(asked, Why::Spent { number, last }))
            }
            ActivateRow::Occupied { run } => self.burn(asked, Why::Occupied { run }),
            ActivateRow::Past => {
                let until = asked.until;
                self.burn(asked, Why::LeasePast { until, reading })
            }
            ActivateRow::NotMatched => self.burn(asked, Why::NotMatched),
            ActivateRow::Starts => self.begin(alloc, asked, ad, judged, reading),
        }
    }

    fn say_gone_where(&mut self, spent: bool, run: RunNo) -> Result<(), Memory>
        ensures { IfOk result (λ _. self.new
            ≡ record self.old { mails = self.old.mails ++ gone_where spent run }) }
    {
        if spent {
            self.send(gone(run, false))?;
        }
        Ok(())
    }

    // The run's number is used, and it never starts.
    fn burn(&mut self, asked: Activation, why: Why) -> Result<(), Memory>
        requires { self.old ≡ becomes self.old.state }
        ensures { IfOk result (λ _. self.new ≡ burned asked why self.old.state) }
    {
        self.state.use_number(asked.run.number);
        self.send(denied(asked, why))?;
        self.send(gone(asked.run, true))
    }

    fn begin(
        &mut self,
        alloc: Global,
        asked: Activation,
        ad: &Ad,
        judged: Option<Judged>,
        reading: u64,
    ) -> Result<(), Memory>
        requires { self.old ≡ becomes self.old.state }
        ensures { IfOk result (λ _. self.new
            ≡ begun judged asked (launch_of ad.now) reading self.old.state) }
    {
        let Some(judged) = judged else {
            return Ok(());
        };
        let what = launch_of(alloc, ad)?;
        let Activation { run, job, until } = asked;
        self.state.use_number(run.number);
        self.state.put_run(Running {
            run,
            job,
            until,
            mark: None,
            judged,
        });
        self.state.enter(Cue::Begin, reading);
        self.task = Task::Launch { run, job, what };
        self.send(Mail::Seen { run, until })
    }
}

fn denied(asked: Activation, why: Why) -> Mail
    ensures { result ≡ run_denied asked why }
{
    Mail::Denied {
        claim: asked.run.claim,
        run: Some(asked.run),
        job: asked.job,
        why,
    }
}

fn gone(run: RunNo, kept: bool) -> Mail
    ensures { result ≡ mail.Gone run kept }
{
    Mail::Gone { run, kept }
}

/// What is known here of a run that an Alive or a Stop names.
#[derive(Clone, Copy)]
pub(crate) enum KnownRun {
    Running,
    Ended { how: How },
    OfHeldClaim,
    Spent,
    Unknown,
}

fn known_run(state: &SlotState, boot: u64, run: RunNo) -> KnownRun
    ensures { result ≡ known_run state.now boot run }
{
    if state.runs(run) {
        return KnownRun::Running;
    }
    let spent = state.is_spent(boot, run);
    known_by_claim(state.held_of(run.claim), spent, run)
}

fn known_by_claim(held: Option<&Held>, spent: bool, run: RunNo) -> KnownRun
    ensures { result ≡ known_by_claim (option_copied held.entry) spent run }
{
    let Some(held) = held else {
        return known_unheld(spent);
    };
    ended_or_other(held.ended, run)
}

fn known_unheld(spent: bool) -> KnownRun
    ensures { result ≡ unheld_run spent }
{
    if spent {
        KnownRun::Spent
    } else {
        KnownRun::Unknown
    }
}

fn ended_or_other(ended: Option<(RunNo, How)>, run: RunNo) -> KnownRun
    ensures { result ≡ ended_or_other ended run }
{
    match ended {
        Some((ended, how)) => {
            if ended == run {
                KnownRun::Ended { how }
            } else {
                KnownRun::OfHeldClaim
            }
        }
        None => KnownRun::OfHeldClaim,
    }
}

/// A run's lease goes on.
pub(crate) fn alive(
    alloc: Global,
    state: &SlotState,
    boot: u64,
    run: RunNo,
    until: u64,
    reading: u64,
) -> Result<Reaction, Memory>
    ensures { IfOk result (λ done. done ≡ after_alive boot run until reading state.now) }
{
    let known = known_run(state, boot, run);
    let mut done = Reaction::none(alloc, state)?;
    done.state.hear_of(run.claim, reading);
    done.take_alive(known, run, until, reading)?;
    Ok(done)
}

/// A run is to be killed.
pub(crate) fn stop(
    alloc: Global,
    state: &SlotState,
    boot: u64,
    run: RunNo,
) -> Result<Reaction, Memory>
    ensures { IfOk result (λ done. done ≡ after_stop boot run state.now) }
{
    let known = known_run(state, boot, run);
    let mut done = Reaction::none(alloc, state)?;
    done.take_stop(known, run)?;
    Ok(done)
}

impl Reaction {
    // Of a slot with which nothing was done yet.
    fn take_alive(
        &mut self,
        known: KnownRun,
        run: RunNo,
        until: u64,
        reading: u64,
    ) -> Result<(), Memory>
        requires { self.old ≡ becomes self.old.state }
        ensures { IfOk result (λ _. self.new
            ≡ after_alive_of known run until reading self.old.state) }
    {
        match known {
            KnownRun::Running => {
                self.state.lengthen(until, reading);
                let until = self.state.until(until);
                self.send(Mail::Seen { run, until })
            }
            known => self.tell_of_run(run, known),
        }
    }

    // Of a slot with which nothing was done yet.
    fn take_stop(&mut self, known: KnownRun, run: RunNo) -> Result<(), Memory>
        requires { self.old ≡ becomes self.old.state }
        ensures { IfOk result (λ _. self.new ≡ after_stop_of known run self.old.state) }
    {
        match known {
            KnownRun::Running => {
                self.state.mark_stopped();
                self.task = Task::Kill { run };
                Ok(())
            }
            known => self.tell_of_run(run, known),
        }
    }

    // A run that is not here is told of.
    fn tell_of_run(&mut self, run: RunNo, known: KnownRun) -> Result<(), Memory>
        requires { self.old ≡ becomes self.old.state }
        ensures { IfOk result (λ _. self.new ≡ after_word_of known run self.old.state) }
    {
        match known {
            KnownRun::Running | KnownRun::Unknown => Ok(()),
            KnownRun::Ended { how } => self.send(Mail::Ended { run, how }),
            KnownRun::OfHeldClaim => {
                self.state.use_number(run.number);
                self.send(gone(run, true))
            }
            KnownRun::Spent => self.send(gone(run, false)),
        }
    }
}
