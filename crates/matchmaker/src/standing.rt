ghost use Rattle.std.specs.Prelude.{◌≡◌};
ghost use Rattle.matchmaker.specs.Accounts.{new_standing, standing_after, IsStanding};

use crate::priority::{BEST, priority_after};

/// How many slots a pool has at most, and so a user may have in use.
pub const MAX_SLOTS: u32 = 256;

/// The greatest factor of a user.
pub const MAX_FACTOR: u32 = 1_000_000;

/// The factor of a new user (HTCondor manual, DEFAULT_PRIO_FACTOR).
pub const NEW_FACTOR: u32 = 1000;

/// How a user stands.
#[derive(Clone, Copy)]
pub struct Standing {
    /// The real priority, in millionths; lower is better.
    pub real: u64,
    /// The slots in use.
    pub in_use: u32,
    /// By which the real priority is multiplied.
    pub factor: u32,
    /// The slots that the user may have at most.
    pub ceiling: Option<u32>,
}

impl Standing {
    /// How a new user stands.
    pub fn new() -> Standing
        ensures new { result ≡ new_standing }
        ensures within { IsStanding result }
    {
        Standing {
            real: BEST,
            in_use: 0,
            factor: NEW_FACTOR,
            ceiling: None,
        }
    }

    // How the user stands so many ticks later.
    pub(crate) fn after(self, ticks: u64) -> Standing
        requires within { IsStanding self }
        ensures after { result ≡ standing_after ticks self }
        ensures within { IsStanding result }
    {
        let real = priority_after(ticks, self.in_use, self.real);
        Standing { real, ..self }
    }
}
