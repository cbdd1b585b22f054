ghost use Rattle.std.specs.Prelude.{◌≡◌, IfOk};
ghost use Rattle.thin_pool.specs.declared.answer.StepError.TheVariants.{Memory as NoMemory};
ghost use Rattle.thin_pool.specs.Answers.{kept_of};

use ad_value::{Copied, Memory};
use claim_id::{JobId, SlotId};
use pool_outer::Launch;
use std::alloc::Global;
use std::fmt;
use thiserror::Error;

/// What an accepted event asks for. A Launch is to be launched once.
#[derive(Drop)]
pub enum Answer {
    Done,
    Launch { what: Launch },
}

/// An answer as a history keeps it.
#[derive(Drop)]
pub enum Kept {
    Done,
    Launch { what: Launch },
}

/// The answer to an accepted event, and the same for the history.
#[derive(Drop)]
pub struct Stepped {
    pub answer: Answer,
    pub kept: Kept,
}

/// Why an event isn't accepted: the first of these that holds.
#[derive(Clone, Copy, Error)]
pub enum StepError {
    /// After a Close.
    #[error("the pool is closed")]
    Closed,
    /// A Submit with which more than 10,000 jobs were submitted.
    #[error("the pool has 10000 jobs at most")]
    Jobs,
    /// A Start of a slot that has a run, or of a job that isn't idle or isn't there.
    #[error("the slot has a run, or the job is not idle")]
    Occupied { slot: SlotId, job: JobId },
    /// A Start whose match isn't one of the job's ad and the slot's, or not of its reading. A Close
    /// whose want of a match isn't one of the idle jobs' ads and all slots' ads, or not of its
    /// reading: `slot` is the pool's first.
    #[error("what was judged is not what the pool has")]
    AdMoved { slot: SlotId },
    /// An Ended of a job that has no run or isn't there.
    #[error("the job has no run")]
    NoRun { job: JobId },
    /// A Close while a slot has a run.
    #[error("a run has not ended")]
    NotQuiet,
    #[error("out of memory")]
    Memory,
}

impl fmt::Debug for StepError {
    fn fmt<W: fmt::Write>(&self, f: &mut fmt::Formatter<W>) -> fmt::Result {
        fmt::Display::fmt(self, f)
    }
}

impl From<Memory> for StepError {
    ghost from_gives = { λ _ e. e ≡ NoMemory };

    fn from(_: Memory) -> StepError {
        StepError::Memory
    }
}

impl Answer {
    /// The answer as a history keeps it.
    pub fn keep(&self, alloc: Global) -> Result<Kept, Memory>
        ensures { IfOk result (λ k. k ≡ kept_of self.now) }
    {
        match self {
            Answer::Done => Ok(Kept::Done),
            Answer::Launch { what } => Ok(Kept::Launch {
                what: what.copy(alloc)?,
            }),
        }
    }
}
