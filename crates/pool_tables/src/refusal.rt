ghost use Rattle.std.specs.Prelude.{◌≡◌};
ghost use Rattle.pool_tables.specs.declared.refusal.MailError.TheVariants.{Memory as NoMailMemory};
ghost use Rattle.pool_tables.specs.declared.refusal.StepError.TheVariants.{Memory as NoMemory};

use ad_value::Memory;
use claim_id::{JobId, RunNo, SlotId};
use pool_outer::Daemon;
use std::fmt;
use thiserror::Error;

/// What is left to do in a pool that is to be closed.
#[derive(Clone, Copy, Debug)]
pub enum Unquiet {
    /// The daemon is down.
    Down(Daemon),
    /// The slot has a claim, or one waits for it.
    Claim(SlotId),
    /// The job is under a run.
    Under(JobId),
    /// The transaction of that number is unfinished.
    Pending(u64),
    /// The order at that place of the input wasn't given, or wasn't received.
    Order(u64),
}

/// Why an event isn't accepted: the first of these that holds.
#[derive(Clone, Copy, Error)]
pub enum StepError {
    /// After a Close.
    #[error("the pool is closed")]
    Closed,
    /// A history has 1,000,000 events at most.
    #[error("the history has as many events as it may")]
    Events,
    /// The daemon isn't in the pool, or it is down and this is not its Reopen.
    #[error("{who:?} is down, or not in the pool")]
    Down { who: Daemon },
    /// A Reopen of a daemon that is up.
    #[error("{who:?} is up")]
    Up { who: Daemon },
    /// The daemon has crashed since.
    #[error("boot {asked} is not {current}, the present one")]
    OldBoot { asked: u64, current: u64 },
    #[error("there is no mail {index}: {sent} were sent")]
    NoMail { index: u64, sent: u64 },
    #[error("mail {index} goes to {to:?}")]
    NotYours { index: u64, to: Daemon },
    /// The mail was received as often as it may be.
    #[error("mail {index} was received before")]
    Again { index: u64 },
    #[error("transaction {number} is unfinished")]
    StillPending { number: u64 },
    #[error("transaction {asked} is not the unfinished one, {current:?}")]
    NotPending { asked: u64, current: Option<u64> },
    #[error("another transaction has number {number}")]
    OtherItem { number: u64 },
    #[error("no slot of the machine has the run {run:?}")]
    NoRun { run: RunNo },
    /// A Reopen without the end of a run's program.
    #[error("the program of {run:?} has no end")]
    RunLeft { run: RunNo },
    #[error("nothing of the kind is due")]
    NotDue,
    /// What was judged isn't what there is. Where no slot is meant it is the pool's first.
    #[error("what was judged of {slot:?} is not what there is")]
    AdMoved { slot: SlotId },
    #[error("the history has {length} events, and not {asked}")]
    Moved { asked: u64, length: u64 },
    #[error("something is left to do: {what:?}")]
    NotQuiet { what: Unquiet },
    #[error("the queue has as many jobs as it may")]
    Jobs,
    #[error("the pool has as many bytes of ads as it may")]
    Bytes,
    #[error("out of memory")]
    Memory,
}

impl fmt::Debug for StepError {
    fn fmt<W: fmt::Write>(&self, f: &mut fmt::Formatter<W>) -> fmt::Result {
        fmt::Display::fmt(self, f)
    }
}

impl From<Memory> for StepError {
    ghost from_gives = { λ _ e. e ≡ NoMemory };

    fn from(_: Memory) -> StepError {
        StepError::Memory
    }
}

/// Why a mail isn't handed out: the first of these that holds.
#[derive(Clone, Copy, Error)]
pub enum MailError {
    #[error("there is no mail {index}: {sent} were sent")]
    NoMail { index: u64, sent: u64 },
    #[error("mail {index} goes to {to:?}")]
    NotYours { index: u64, to: Daemon },
    #[error("out of memory")]
    Memory,
}

impl fmt::Debug for MailError {
    fn fmt<W: fmt::Write>(&self, f: &mut fmt::Formatter<W>) -> fmt::Result {
        fmt::Display::fmt(self, f)
    }
}

impl From<Memory> for MailError {
    ghost from_gives = { λ _ e. e ≡ NoMailMemory };

    fn from(_: Memory) -> MailError {
        MailError::Memory
    }
}
