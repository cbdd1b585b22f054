// A pool that is open, with its rolls.

ghost use Rattle.std.specs.Prelude.{◌≡◌, IfOk, OnOk};
ghost use Rattle.pool_cases.specs.Marks.{IsGivenBy};
ghost use Rattle.pool_cases.specs.Driven.{IsDriven, is_of};
ghost use Rattle.pool_state.specs.Openings.{CanOpen, IsOpenedBy};

use crate::asks::{answer_ask, write_number};
use crate::events::read_event;
use crate::matched::{read_close, read_matches, read_receive};
use crate::opening::can_open;
use crate::outcome::{memory, written};
use crate::rolls::Rolls;
use crate::setup::SetUp;
use crate::times::{Times, answer_times, moment, nanos_since};
use ad_eval::FoundMatch;
use ad_value::{Copied, Memory};
use cases::{Case, CaseError};
use daemon_mails::write_mail;
use daemon_texts::Fields;
use pool_answers::{write_answer, write_refusal};
use pool_core::Pool;
use pool_outer::Daemon;
use pool_parts::{Event, Kept, Stepped};
use pool_state::Opening;
use pool_tables::StepError;
use queue_tx::Tx;
use std::alloc::{AllocError, Global};
use std::fmt::Write;
use std::marker::Model;
use std::time::Instant;

/// A pool, the rolls by whose receipts its events come, the transaction that it asked to log last,
/// and how long its events took. After an error it is not to be used. Contracts see the marks of
/// the rolls.
pub(crate) struct OpenPool {
    pool: Pool,
    rolls: Rolls,
    unfinished: Tx,
    times: Times,
}

impl Drop for OpenPool {
    fn drop(self) {
        let OpenPool {
            pool: _pool,
            rolls: _rolls,
            unfinished: _unfinished,
            times: _,
        } = self;
    }
}

impl Model for OpenPool {
    ghost use Rattle.pool_cases.specs.Marks.{RollMarks};
    ghost use Rattle.pool_cases.specs.Driven.{IsDriven};

    ghost Value = { RollMarks };

    ghost view = { λ o. o.rolls };

    ghost invariant = { λ o. IsDriven o.rolls o.pool };
}

impl OpenPool {
    /// The pool that was set up, with rolls of its own. Computes as `Pool::open`.
    pub(crate) fn open(alloc: Global, setup: SetUp) -> Result<OpenPool, CaseError> {
        let rolls = Rolls::new(alloc, setup.next_tx(), setup.machines())?;
        let pool = open_with(alloc, setup, &rolls)?;
        Ok(OpenPool {
            pool,
            rolls,
            unfinished: Tx::new(alloc),
            times: Times::none(),
        })
    }

    /// Appends the answer to a case. Computes in O(bytes), and in the time of the pool's call.
    pub(crate) fn answer(
        &mut self,
        rt: &HostRuntime,
        case: Case<'_>,
        out: &mut String,
    ) -> Result<(), CaseError> {
        match case.kind {
            "view" | "due" | "cluster" | "next" | "wants" | "look" => {
                answer_ask(rt.alloc(), case, &self.pool, out)
            }
            "boot" => self.answer_boot(rt.alloc(), case, out),
            "times" => answer_times(rt, case, &self.times, out),
            "close" => self.answer_close(rt, case, out),
            _ => self.answer_event(rt, case, out),
        }
    }

    // `boot DAEMON`
    fn answer_boot(
        &self,
        alloc: Global,
        case: Case<'_>,
        out: &mut String,
    ) -> Result<(), CaseError> {
        let mut fields = Fields::of(alloc, case)?;
        let who = fields.daemon()?;
        out.push_str("ok")?;
        write_number(self.boot_of(who), out)?;
        fields.end()
    }

    // None where the daemon isn't of the pool.
    fn boot_of(&self, who: Daemon) -> Option<u64> {
        if is_of(who, self.rolls.machines()) {
            Some(self.pool.boot(who))
        } else {
            None
        }
    }

    // With the time in which the proof is made.
    fn answer_close(
        &mut self,
        rt: &HostRuntime,
        case: Case<'_>,
        out: &mut String,
    ) -> Result<(), CaseError> {
        let start = moment(rt);
        match read_close(rt.alloc(), case, &self.pool)? {
            Ok(event) => self.take(rt, event, start, out),
            Err(found) => written(write_found(&found, out)),
        }
    }

    fn answer_event(
        &mut self,
        rt: &HostRuntime,
        case: Case<'_>,
        out: &mut String,
    ) -> Result<(), CaseError> {
        let event = self.read_event(rt.alloc(), case)?;
        self.take(rt, event, moment(rt), out)
    }

    // The event that a case says, but for `close`. Computes in O(bytes); of `submit-many` in
    // O(size of the ad) for each job; of `receive` and `matches` as `judge`, and as the pool's
    // `wants` and `look`.
    fn read_event(&mut self, alloc: Global, case: Case<'_>) -> Result<Event, CaseError>
        ensures marks { self.new ≡ self.old }
        ensures given { IfOk result (IsGivenBy self.old) }
    {
        let mut fields = Fields::of(alloc, case)?;
        let event = self.event_of(alloc, case, &mut fields)?;
        fields.end()?;
        Ok(event)
    }

    fn event_of(
        &mut self,
        alloc: Global,
        case: Case<'_>,
        fields: &mut Fields<'_>,
    ) -> Result<Event, CaseError>
        ensures marks { self.new ≡ self.old }
        ensures given { IfOk result (IsGivenBy self.old) }
    {
        match case.kind {
            "receive" => read_receive(alloc, fields, &self.pool),
            "matches" => read_matches(alloc, fields, &self.pool),
            _ => read_event(alloc, case, fields, &mut self.rolls, &self.unfinished),
        }
    }

    // An event happens, or is refused. Its time begins at the start.
    fn take(
        &mut self,
        rt: &HostRuntime,
        event: Event,
        start: Option<Instant>,
        out: &mut String,
    ) -> Result<(), CaseError>
        requires { IsGivenBy self.old event }
    {
        let sent = self.pool.mails().len();
        let kind = self.times.kind_of(&event);
        match self.step(rt.alloc(), event) {
            Ok(stepped) => {
                self.times.add(kind, nanos_since(rt, start), &stepped.kept);
                self.take_step(rt.alloc(), stepped, sent, out)
            }
            Err(StepError::Memory) => Err(CaseError::Memory),
            Err(error) => written(write_refusal(error, out)),
        }
    }

    // An event happens, where it is accepted. The receipt that it has is put back. Computes as
    // `Pool::step`.
    fn step(&mut self, alloc: Global, event: Event) -> Result<Stepped, StepError>
        requires { IsGivenBy self.old event }
        ensures { self.new ≡ self.old }
    {
        let stepped = self.pool.step(alloc, &event);
        self.rolls.put_back(event.into_receipt());
        stepped
    }

    fn take_step(
        &mut self,
        alloc: Global,
        stepped: Stepped,
        sent: u64,
        out: &mut String,
    ) -> Result<(), CaseError> {
        let Stepped { answer, kept } = stepped;
        write_answer(alloc, answer, out)?;
        self.note(alloc, &kept)?;
        self.write_sent(alloc, sent, out)
    }

    // The transaction that is to be logged is the unfinished one.
    fn note(&mut self, alloc: Global, kept: &Kept) -> Result<(), CaseError> {
        if let Kept::Append { tx, .. } = kept {
            self.unfinished = memory(tx.copy(alloc))?;
        }
        Ok(())
    }

    // The mails from a number on.
    fn write_sent(&self, alloc: Global, from: u64, out: &mut String) -> Result<(), CaseError> {
        for number in from..self.pool.mails().len() {
            self.write_mail(alloc, number, out)?;
        }
        Ok(())
    }

    fn write_mail(&self, alloc: Global, number: u64, out: &mut String) -> Result<(), CaseError> {
        let Some(sent) = self.pool.mails().get(number) else {
            return Err(CaseError::Memory);
        };
        write!(out, "\t{number}:")?;
        write_mail(alloc, &sent.mail, out)?;
        Ok(())
    }
}

// Whether a pool of so many machines has the daemon.
fn is_of(who: Daemon, machines: usize) -> bool
    ensures { result ≡ is_of who machines }
{
    match who {
        Daemon::Startd(machine) => usize::from(machine) < machines,
        Daemon::Schedd | Daemon::Matchmaker => true,
    }
}

fn write_found(found: &FoundMatch, out: &mut String) -> Result<(), AllocError> {
    let (job, slot) = (found.job, found.slot);
    write!(out, "Match\t{job}\t{slot}")
}

// ---- opening

fn open_with(alloc: Global, setup: SetUp, rolls: &Rolls) -> Result<Pool, CaseError>
    ensures { IfOk result (IsDriven rolls.now) }
{
    match rolls.end_marks(alloc) {
        Ok(end_marks) => {
            let fault = setup.form();
            open_opening(
                alloc,
                setup.into_opening(rolls.log_mark(), end_marks),
                fault,
            )
        }
        Err(Memory) => Err(CaseError::Memory),
    }
}

fn open_opening(alloc: Global, opening: Opening, fault: CaseError) -> Result<Pool, CaseError>
    ensures can { OnOk result (CanOpen opening) }
    ensures opened { IfOk result (IsOpenedBy opening) }
{
    match can_open(alloc, &opening) {
        Ok(true) => match Pool::open(alloc, opening) {
            Ok(pool) => Ok(pool),
            Err(Memory) => Err(CaseError::Memory),
        },
        Ok(false) => Err(fault),
        Err(Memory) => Err(CaseError::Memory),
    }
}
