// What can be set.

ghost use Rattle.std.specs.Prelude.{◌≡◌};
ghost use Rattle.pool_config.specs.Keys.{sets_of, is_of_machine};

use crate::setting_word::{PoolWord, SlotWord};

/// What can be set.
#[derive(Clone, Copy)]
pub enum Key<'a> {
    Pool(PoolWord),
    /// How many slots this user may have.
    Ceiling(&'a str),
    /// The factor of this user's priority.
    PrioFactor(&'a str),
    Slots(SlotWord),
    /// This attribute of a machine's slots.
    Attribute(&'a str),
}

impl Key<'_> {
    /// Whether it sets what a machine's slots have. Computes in O(1).
    pub(crate) fn is_of_machine(self) -> bool
        ensures { result ≡ is_of_machine (sets_of self.entry) }
    {
        match self {
            Key::Slots(_) | Key::Attribute(_) => true,
            Key::Pool(_) | Key::Ceiling(_) | Key::PrioFactor(_) => false,
        }
    }
}
