ghost use Rattle.std.specs.Prelude.{◌≡◌};
ghost use Rattle.startd_core.specs.Startds.{nothing_done, kill_answer};

use ad_value::Seq;
use claim_id::{JobId, RunNo};
use pool_mail::MailList;
use pool_outer::Launch;
use std::alloc::Global;

/// Leave to start a run, which only an accepted Activate gives, and which can't be let go but by
/// `spend`.
pub struct Permit {
    run: RunNo,
    job: JobId,
    what: Launch,
}

impl Permit {
    pub(crate) fn new(run: RunNo, job: JobId, what: Launch) -> Permit
        ensures { result ≡ record { run = run; job = job; what = what } }
    {
        Permit { run, job, what }
    }

    /// The run that may start. Computes in O(1).
    pub fn run(&self) -> RunNo
        ensures { result ≡ self.now.run }
    {
        self.run
    }

    /// The job that it is a run of. Computes in O(1).
    pub fn job(&self) -> JobId
        ensures { result ≡ self.now.job }
    {
        self.job
    }

    /// What is to be started. Computes in O(1).
    pub fn what(&self) -> &Launch
        ensures { result.now ≡ self.now.what }
    {
        &self.what
    }

    /// The run, its job and what is to be started. Computes in O(1), without memory.
    pub fn spend(self) -> (RunNo, JobId, Launch)
        ensures { result ≡ (self.run, self.job, self.what) }
    {
        let Permit { run, job, what } = self;
        (run, job, what)
    }
}

/// A list of runs.
pub type RunList = Seq<RunNo>;

/// What a startd's machine is to do.
pub enum StartdAnswer {
    Done,
    Launch { permit: Permit },
    Kill { runs: RunList },
}

/// What a startd answers to an event: the mails that it sends, in order, and what is to be done.
pub struct StartdStep {
    pub mails: MailList,
    pub answer: StartdAnswer,
}

impl StartdStep {
    /// What is sent and what is to be done, without memory. Computes in O(1).
    pub fn into_parts(self) -> (MailList, StartdAnswer)
        ensures { result ≡ (self.mails, self.answer) }
    {
        let StartdStep { mails, answer } = self;
        (mails, answer)
    }

    // Of an event that doesn't happen.
    pub(crate) fn give_up(self) {
        let StartdStep {
            mails: _mails,
            answer,
        } = self;
        match answer {
            StartdAnswer::Done => {}
            StartdAnswer::Launch { permit } => {
                let _run = permit.spend();
            }
            StartdAnswer::Kill { runs: _runs } => {}
        }
    }
}

/// Nothing is sent or done.
pub(crate) fn nothing_done(alloc: Global) -> StartdStep
    ensures { result ≡ nothing_done }
{
    StartdStep {
        mails: MailList::new(alloc),
        answer: StartdAnswer::Done,
    }
}

/// The runs are to be killed, where there are some.
pub(crate) fn kill_answer(runs: RunList) -> StartdAnswer
    ensures { result ≡ kill_answer runs }
{
    if runs.is_empty() {
        StartdAnswer::Done
    } else {
        StartdAnswer::Kill { runs }
    }
}
