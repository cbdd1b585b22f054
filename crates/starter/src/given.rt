// What was given to a launcher, and what came of it.
use claim_id::RunNo;
use pool_mail::Ending;
use pool_outer::Launch;
use receipt_roll::{Receipt, RollError};
use std::alloc::AllocError;
use std::fmt;
use thiserror::Error;

/// What came of a permit.
#[derive(Clone, Copy)]
pub enum Fate {
    /// A child was started.
    Started,
    /// The system refused to start one.
    Refused,
    /// It was not tried.
    Declined,
    /// Memory ran out before one was started.
    Lost,
}

/// A permit that was spent: its run, what was to be started, and what came of it.
pub struct Given {
    pub run: RunNo,
    pub what: Launch,
    pub fate: Fate,
}

impl Drop for Given {
    fn drop(self) {
        let Given {
            run: _,
            what: _what,
            fate: _,
        } = self;
    }
}

/// What a launch answers.
#[derive(Drop)]
pub enum Launched {
    /// A child runs.
    Started,
    /// The system refused; the receipt is that of the run's ending, which is NotStarted.
    Refused(Receipt<Ending>),
    /// Memory ran out. The run has no child and no ending.
    Lost,
}

/// Why there is no room for one permit more. The launcher is then as it was.
#[derive(Clone, Copy, Error)]
pub enum LaunchError {
    /// Its endings and its children are as many as a roll has items.
    #[error("the roll of endings is full")]
    Roll,
    #[error("out of memory")]
    Memory,
}

impl fmt::Debug for LaunchError {
    fn fmt<W: fmt::Write>(&self, f: &mut fmt::Formatter<W>) -> fmt::Result {
        fmt::Display::fmt(self, f)
    }
}

impl From<RollError> for LaunchError {
    ghost use Rattle.std.specs.Prelude.{◌≡◌};
    ghost use Rattle.starter.specs.Launchers.{launch_error_of};

    ghost from_gives = { λ error new. new ≡ launch_error_of error };

    fn from(error: RollError) -> LaunchError {
        match error {
            RollError::Full => LaunchError::Roll,
            RollError::Memory => LaunchError::Memory,
        }
    }
}

impl From<AllocError> for LaunchError {
    ghost use Rattle.std.specs.Prelude.{◌≡◌};
    ghost use Rattle.starter.specs.declared.given.LaunchError.TheVariants as launch_error;

    ghost from_gives = { λ _ new. new ≡ launch_error.Memory };

    fn from(_: AllocError) -> LaunchError {
        LaunchError::Memory
    }
}
