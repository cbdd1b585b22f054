ghost use Rattle.std.specs.Prelude.{◌≡◌, IfOk};

use crate::pool::Pool;
use ad_value::{Copied, Memory, Seq};
use pool_parts::{Event, Kept};
use std::alloc::Global;

/// What is to go wrong with a daemon. Mails count from 0.
pub struct Faults {
    /// The mails that it does not receive.
    pub lose: Seq<u64>,
    /// The mails that it receives twice.
    pub repeat: Seq<u64>,
    /// The mails that it receives after the next one to it, or when it is otherwise idle.
    pub late: Seq<u64>,
    /// After which of its points it crashes, from 1. Each act that is accepted, and each append
    /// without error, is a point.
    pub crash: Seq<u64>,
}

impl Drop for Faults {
    fn drop(self) {
        let Faults {
            lose: _lose,
            repeat: _repeat,
            late: _late,
            crash: _crash,
        } = self;
    }
}

impl Copied for Faults {
    fn copy(&self, alloc: Global) -> Result<Faults, Memory> {
        Ok(Faults {
            lose: copy_numbers(alloc, self.lose.as_slice())?,
            repeat: copy_numbers(alloc, self.repeat.as_slice())?,
            late: copy_numbers(alloc, self.late.as_slice())?,
            crash: copy_numbers(alloc, self.crash.as_slice())?,
        })
    }
}

// An equal list of numbers.
fn copy_numbers(alloc: Global, numbers: &[u64]) -> Result<Seq<u64>, Memory>
    ensures { IfOk result (λ copied. copied ≡ numbers.now) }
{
    let mut copied = Seq::new(alloc);
    for number in numbers {
        copied.push(*number)?;
    }
    Ok(copied)
}

/// An accepted event, and what a history keeps of its answer.
pub struct Step {
    pub event: Event,
    pub kept: Kept,
}

impl Drop for Step {
    fn drop(self) {
        let Step {
            event: _event,
            kept: _kept,
        } = self;
    }
}

/// Accepted events, in order.
pub type StepList = Seq<Step>;

/// What happened: the pool as it was opened, and the events that it accepted.
pub struct History {
    /// None only where no pool was opened; then there are no events, and there is no load.
    pub opening: Option<Pool>,
    /// Whether the script has a load line.
    pub load: bool,
    pub list: StepList,
}

impl Drop for History {
    fn drop(self) {
        let History {
            opening: _opening,
            load: _,
            list: _list,
        } = self;
    }
}
