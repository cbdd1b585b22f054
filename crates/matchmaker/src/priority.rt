ghost use Rattle.std.specs.Prelude.{◌≡◌, ◌≤◌};
ghost use Rattle.matchmaker.specs.Priority.{after_tick, priority_after};

use crate::standing::MAX_SLOTS;

/// What a slot in use comes to, in millionths.
pub const SLOT: u64 = 1_000_000;

/// The best priority, that of a new user, in millionths.
pub const BEST: u64 = 500_000;

/// The worst priority, that of all slots in use for ever, in millionths.
pub const WORST: u64 = 256_000_000;

// At each tick KEPT of PARTS parts are kept, and TAKEN are of what is in use: a priority of which
// nothing is in use halves in 1024 ticks.
pub(crate) const KEPT: u64 = 4_292_061_010;

pub(crate) const TAKEN: u64 = 2_906_286;

pub(crate) const PARTS: u64 = 4_294_967_296;

// A priority one tick later.
fn after_tick(in_use: u32, real: u64) -> u64
    requires slots { in_use ≤ MAX_SLOTS }
    requires worst { real ≤ WORST }
    ensures tick { result ≡ after_tick in_use real }
    ensures best { BEST ≤ result }
    ensures worst { result ≤ WORST }
{
    let taken = TAKEN * SLOT * u64::from(in_use);
    ((KEPT * real + taken) / PARTS).max(BEST)
}

// A priority so many ticks later. One that no longer changes is not taken further, so this computes
// in O(the ticks until it does), which are fewer than 20,000.
pub(crate) fn priority_after(ticks: u64, in_use: u32, real: u64) -> u64
    requires slots { in_use ≤ MAX_SLOTS }
    requires best { BEST ≤ real }
    requires worst { real ≤ WORST }
    ensures ticks { result ≡ priority_after ticks in_use real }
    ensures best { BEST ≤ result }
    ensures worst { result ≤ WORST }
{
    let mut now = real;
    'ticks: for _tick in 0..ticks {
        let next = after_tick(in_use, now);
        if next == now {
            return now;
        }
        now = next;
    }
    now
}
