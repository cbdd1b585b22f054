ghost use Rattle.std.specs.Prelude.{◌≡◌};

use crate::answer::ScheddStep;
use crate::change::ScheddChange;

/// What an event is to make of a schedd, with the memory that this takes, and what is sent and is
/// to be logged. Where it isn't committed, nothing has happened.
pub struct PreparedSchedd {
    pub change: ScheddChange,
    pub step: ScheddStep,
}

impl Drop for PreparedSchedd {
    fn drop(self) {
        let PreparedSchedd {
            change: _change,
            step: _step,
        } = self;
    }
}

impl PreparedSchedd {
    /// What will be sent, and what will be to be logged. Computes in O(1).
    pub fn step(&self) -> &ScheddStep
        ensures { result.now ≡ self.now.step }
    {
        &self.step
    }

    pub(crate) fn into_parts(self) -> (ScheddChange, ScheddStep)
        ensures { result ≡ (self.change, self.step) }
    {
        let PreparedSchedd { change, step } = self;
        (change, step)
    }
}
