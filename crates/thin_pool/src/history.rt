use crate::answer::Kept;
use crate::event::Event;
use crate::pool::Pool;
use ad_value::Seq;

/// An accepted event with its answer.
pub struct Step {
    pub event: Event,
    pub kept: Kept,
}

impl Drop for Step {
    fn drop(self) {
        let Step {
            event: _event,
            kept: _kept,
        } = self;
    }
}

/// Accepted events, in order.
pub type StepList = Seq<Step>;

/// What happened: the pool as it was opened, if one was, and the events that it accepted.
pub struct History {
    pub opening: Option<Pool>,
    /// Whether the input had a load; this pool takes none.
    pub load: bool,
    pub list: StepList,
}

impl Drop for History {
    fn drop(self) {
        let History {
            opening: _opening,
            load: _,
            list: _list,
        } = self;
    }
}
