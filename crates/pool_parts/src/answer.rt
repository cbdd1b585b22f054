ghost use Rattle.std.specs.Prelude.{◌≡◌, IfOk};
ghost use Rattle.pool_parts.specs.Answers.{kept_of};

use ad_value::{Copied, Memory};
use claim_id::{JobId, RunNo};
use pool_outer::Launch;
use queue_tx::Tx;
use startd_core::{Permit, RunList};
use std::alloc::Global;

/// What an accepted event asks for.
pub enum Answer {
    Done,
    /// The transaction of that number is to be logged.
    Append { number: u64, tx: Tx },
    /// A program is to be launched once.
    Launch { permit: Permit },
    /// The programs of runs are to be killed.
    Kill { runs: RunList },
}

/// An answer as a history keeps it.
pub enum Kept {
    Done,
    Append {
        number: u64,
        tx: Tx,
    },
    Launch {
        run: RunNo,
        job: JobId,
        what: Launch,
    },
    Kill {
        runs: RunList,
    },
}

impl Drop for Kept {
    fn drop(self) {
        match self {
            Kept::Done => {}
            Kept::Append { number: _, tx: _tx } => {}
            Kept::Launch {
                run: _,
                job: _,
                what: _what,
            } => {}
            Kept::Kill { runs: _runs } => {}
        }
    }
}

impl Answer {
    /// The answer as a history keeps it.
    pub fn keep(&self, alloc: Global) -> Result<Kept, Memory>
        ensures { IfOk result (λ kept. kept ≡ kept_of self.now) }
    {
        match self {
            Answer::Done => Ok(Kept::Done),
            Answer::Append { number, tx } => Ok(Kept::Append {
                number: *number,
                tx: tx.copy(alloc)?,
            }),
            Answer::Launch { permit } => Ok(Kept::Launch {
                run: permit.run(),
                job: permit.job(),
                what: permit.what().copy(alloc)?,
            }),
            Answer::Kill { runs } => Ok(Kept::Kill {
                runs: copied_runs(alloc, runs.as_slice())?,
            }),
        }
    }
}

// An equal list of runs.
fn copied_runs(alloc: Global, runs: &[RunNo]) -> Result<RunList, Memory>
    ensures { IfOk result (λ copied. copied ≡ runs.now) }
{
    let mut copied = RunList::new(alloc);
    for run in runs {
        copied.push(*run)?;
    }
    Ok(copied)
}

/// The answer to an accepted event, and the same for the history.
pub struct Stepped {
    pub answer: Answer,
    pub kept: Kept,
}
