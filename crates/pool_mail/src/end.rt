use ad_value::{Copied, Memory};
use claim_id::RunNo;
use std::alloc::Global;

/// How a run's program ended.
#[derive(Clone, Copy)]
pub enum End {
    /// It exited with this status.
    Exited(i32),
    /// A signal of this number ended it.
    Signalled(i32),
    /// It was not started.
    NotStarted,
}

/// How a run ended.
#[derive(Clone, Copy, PartialEq, Eq)]
pub enum How {
    /// Its program exited with this status.
    Exited(i32),
    /// A signal of this number ended its program, and the startd had not told it to go.
    Signalled(i32),
    /// Its program was not started.
    NotStarted,
    /// The startd killed it, of its own accord.
    Evicted,
    /// The startd killed it, since the schedd asked for it.
    Stopped,
}

/// The end of a run's program.
#[derive(Clone, Copy)]
pub struct Ending {
    pub run: RunNo,
    pub end: End,
}

impl Copied for End {
    fn copy(&self, _: Global) -> Result<End, Memory> {
        Ok(*self)
    }
}

impl Copied for How {
    fn copy(&self, _: Global) -> Result<How, Memory> {
        Ok(*self)
    }
}

impl Copied for Ending {
    fn copy(&self, _: Global) -> Result<Ending, Memory> {
        Ok(*self)
    }
}
