use crate::log::OpenLog;
use crate::schedd_answers::write_step;
use crate::settings::settings_of;
use ad_value::Memory;
use cases::{Case, CaseError};
use claim_id::JobId;
use daemon_mails::mail_of;
use daemon_texts::read_job;
use pool_mail::{Mail, Settings};
use schedd_core::{check, logged, receive, reopen, tick};
use schedd_plan::JobPlan;
use schedd_state::{Schedd, ScheddStep};
use std::alloc::Global;

/// A schedd, its queue as logged, and the plan whose transaction is unfinished. After an error it
/// is not to be used.
pub struct ScheddScript {
    settings: Settings,
    schedd: Schedd,
    log: OpenLog,
    unfinished: Option<JobPlan>,
}

impl Drop for ScheddScript {
    fn drop(self) {
        let ScheddScript {
            settings: _,
            schedd: _schedd,
            log: _log,
            unfinished: _,
        } = self;
    }
}

impl ScheddScript {
    /// `new-schedd POOL_BOOT JOB_LEASE ALIVE_INTERVAL CLAIM_LEASE PERIODIC_EXPR_INTERVAL`: a schedd
    /// whose queue is empty. Computes in O(bytes).
    pub fn new(alloc: Global, case: Case<'_>) -> Result<ScheddScript, CaseError> {
        let settings = settings_of(alloc, case)?;
        ScheddScript::of_log(alloc, OpenLog::empty(alloc), settings)
    }

    // The schedd that opens with a log.
    fn of_log(alloc: Global, log: OpenLog, settings: Settings) -> Result<ScheddScript, CaseError> {
        match Schedd::new(alloc, log.queue(), settings) {
            Ok(schedd) => Ok(ScheddScript {
                settings,
                schedd,
                log,
                unfinished: None,
            }),
            Err(Memory) => Err(CaseError::Memory),
        }
    }

    /// `queue TEXT`: the schedd opens with the log of this text. Computes in O(bytes), and in the
    /// time of the log's transactions.
    pub fn open(&mut self, alloc: Global, case: Case<'_>) -> Result<(), CaseError> {
        let log = OpenLog::of_case(alloc, case)?;
        *self = ScheddScript::of_log(alloc, log, self.settings)?;
        Ok(())
    }

    /// Appends the answer to `receive MAIL READING`, `tick READING`, `check JOB READING`,
    /// `logged NUMBER` or `reopen KEPT|LOST READING`. Computes in O(bytes), and in the time of the
    /// schedd's call.
    pub fn answer(
        &mut self,
        alloc: Global,
        case: Case<'_>,
        out: &mut String,
    ) -> Result<(), CaseError> {
        match self.unfinished {
            Some(plan) => self.answer_unfinished(alloc, case, plan, out),
            None => self.answer_event(alloc, case, out),
        }
    }

    // Nothing is unfinished.
    fn answer_event(
        &mut self,
        alloc: Global,
        case: Case<'_>,
        out: &mut String,
    ) -> Result<(), CaseError> {
        match case.kind {
            "receive" => self.answer_receive(alloc, case, out),
            "tick" => self.answer_tick(alloc, case, out),
            "check" => self.answer_check(alloc, case, out),
            "reopen" => self.answer_reopen(alloc, case, None, out),
            _ => Err(CaseError::Kind { line: case.line }),
        }
    }

    // The transaction of a plan is unfinished.
    fn answer_unfinished(
        &mut self,
        alloc: Global,
        case: Case<'_>,
        plan: JobPlan,
        out: &mut String,
    ) -> Result<(), CaseError> {
        match case.kind {
            "logged" => self.answer_logged(alloc, case, plan, out),
            "reopen" => self.answer_reopen(alloc, case, Some(plan), out),
            _ => Err(CaseError::Kind { line: case.line }),
        }
    }

    fn answer_receive(
        &mut self,
        alloc: Global,
        case: Case<'_>,
        out: &mut String,
    ) -> Result<(), CaseError> {
        let (mail, reading) = case.two_fields()?;
        let reading = case.natural(reading)?;
        let mail = mail_of(alloc, case, mail)?;
        self.receive(alloc, &mail, reading, out)
    }

    fn receive(
        &mut self,
        alloc: Global,
        mail: &Mail,
        reading: u64,
        out: &mut String,
    ) -> Result<(), CaseError> {
        let step = receive(&mut self.schedd, alloc, self.log.queue(), mail, reading);
        self.take_step(alloc, step, out)
    }

    fn answer_tick(
        &mut self,
        alloc: Global,
        case: Case<'_>,
        out: &mut String,
    ) -> Result<(), CaseError> {
        let reading = case.natural(case.one_field()?)?;
        if !self.schedd.due(self.log.queue(), reading) {
            out.push_str("NotDue")?;
            return Ok(());
        }
        let step = tick(&mut self.schedd, alloc, self.log.queue(), reading);
        self.take_step(alloc, step, out)
    }

    fn answer_check(
        &mut self,
        alloc: Global,
        case: Case<'_>,
        out: &mut String,
    ) -> Result<(), CaseError> {
        let (job, reading) = case.two_fields()?;
        let reading = case.natural(reading)?;
        match read_job(job) {
            Ok(job) => self.check(alloc, job, reading, out),
            Err(error) => Err(error.at_line(case.line)),
        }
    }

    fn check(
        &mut self,
        alloc: Global,
        job: JobId,
        reading: u64,
        out: &mut String,
    ) -> Result<(), CaseError> {
        if !self.schedd.is_check_due(self.log.queue(), job, reading) {
            out.push_str("NotDue")?;
            return Ok(());
        }
        let step = check(&mut self.schedd, alloc, self.log.queue(), job, reading);
        self.take_step(alloc, step, out)
    }

    fn answer_logged(
        &mut self,
        alloc: Global,
        case: Case<'_>,
        plan: JobPlan,
        out: &mut String,
    ) -> Result<(), CaseError> {
        let number = case.natural(case.one_field()?)?;
        if number != self.log.next_number() {
            return Err(CaseError::Number { line: case.line });
        }
        self.log.add_plan(alloc, case, plan)?;
        let step = logged(&mut self.schedd, alloc, self.log.queue());
        self.take_step(alloc, step, out)
    }

    fn answer_reopen(
        &mut self,
        alloc: Global,
        case: Case<'_>,
        plan: Option<JobPlan>,
        out: &mut String,
    ) -> Result<(), CaseError> {
        let (fate, reading) = case.two_fields()?;
        let reading = case.natural(reading)?;
        self.settle_plan(alloc, case, fate, plan)?;
        let step = reopen(&mut self.schedd, alloc, self.log.queue(), reading);
        self.take_step(alloc, step, out)
    }

    // A crash keeps or loses what is unfinished.
    fn settle_plan(
        &mut self,
        alloc: Global,
        case: Case<'_>,
        fate: &str,
        plan: Option<JobPlan>,
    ) -> Result<(), CaseError> {
        match (fate, plan) {
            ("KEPT", Some(plan)) => self.log.add_plan(alloc, case, plan),
            ("KEPT" | "LOST", _) => Ok(()),
            _ => Err(CaseError::Form { line: case.line }),
        }
    }

    // What a step plans is unfinished from then on.
    fn take_step(
        &mut self,
        alloc: Global,
        step: Result<ScheddStep, Memory>,
        out: &mut String,
    ) -> Result<(), CaseError> {
        match step {
            Ok(step) => {
                self.unfinished = step.plan;
                write_step(alloc, &step, out)
            }
            Err(Memory) => Err(CaseError::Memory),
        }
    }
}
