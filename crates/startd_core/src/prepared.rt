ghost use Rattle.std.specs.Prelude.{◌≡◌};
ghost use Rattle.startd_core.specs.PreparedStartds.{slots_after};

use crate::answer::StartdStep;
use startd_slot::{Slot, SlotState};

/// What becomes of the slots.
pub(crate) enum SlotsChange {
    Same,
    /// The slot of a place stands so.
    Slot { place: usize, state: SlotState },
    /// They are these.
    All(Vec<Slot>),
}

impl Drop for SlotsChange {
    fn drop(self) {
        match self {
            SlotsChange::Same => {}
            SlotsChange::Slot {
                place: _,
                state: _state,
            } => {}
            SlotsChange::All(_slots) => {}
        }
    }
}

impl SlotsChange {
    pub(crate) fn commit(self, slots: &mut Vec<Slot>)
        ensures { slots.new.items ≡ slots_after self slots.old.items }
    {
        match self {
            SlotsChange::Same => {}
            SlotsChange::Slot { place, state } => {
                if let Some(slot) = slots.get_mut(place) {
                    slot.state = state;
                }
            }
            SlotsChange::All(list) => *slots = list,
        }
    }
}

/// What an event makes of a startd.
#[derive(Drop)]
pub(crate) struct StartdChange {
    pub(crate) boot: u64,
    pub(crate) offers: u64,
    pub(crate) slots: SlotsChange,
    pub(crate) ticked: Option<u64>,
    pub(crate) restless: bool,
}

/// What an event is to make of a startd, with the memory that this takes, and what is sent and
/// done. Where it isn't committed, nothing has happened, and no leave to start a run is given.
pub struct PreparedStartd {
    pub(crate) change: StartdChange,
    pub(crate) step: StartdStep,
}

impl Drop for PreparedStartd {
    fn drop(self) {
        let PreparedStartd {
            change: _change,
            step,
        } = self;
        step.give_up();
    }
}

impl PreparedStartd {
    /// What will be sent and done. Computes in O(1).
    pub fn step(&self) -> &StartdStep
        ensures { result.now ≡ self.now.step }
    {
        &self.step
    }

    pub(crate) fn into_parts(self) -> (StartdChange, StartdStep)
        ensures { result ≡ (self.change, self.step) }
    {
        let PreparedStartd { change, step } = self;
        (change, step)
    }
}
