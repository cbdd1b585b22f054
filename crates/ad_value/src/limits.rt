//! The limits that more than one crate keeps. One that a single crate keeps stands there.

ghost use Rattle.std.specs.Prelude.{◌≡◌};

/// How many jobs a queue, and a submit file, may have.
pub const MAX_JOBS: usize = 10_000;

/// How many machines a pool may have.
pub const MAX_MACHINES: usize = 64;

/// How many slots a pool may have.
pub const MAX_SLOTS: usize = 256;

/// The longest time that a pool is set to, and the longest lease of a job, in seconds.
pub const MAX_SECONDS: u64 = 1_000_000;

/// The greatest priority factor of a user.
pub const MAX_FACTOR: u64 = 1_000_000;

/// The most bytes that the text of an expression has, as it is read and as it is written.
pub const MAX_EXPRESSION: usize = 8_192;

/// The last boot of a pool.
pub const LAST_BOOT: u32 = 2_147_483_647;

/// The limits are these numbers.
pub fn limits_are()
    ensures jobs { MAX_JOBS ≡ 10000 }
    ensures machines { MAX_MACHINES ≡ 64 }
    ensures slots { MAX_SLOTS ≡ 256 }
    ensures seconds { MAX_SECONDS ≡ 1000000 }
    ensures factor { MAX_FACTOR ≡ 1000000 }
    ensures expression { MAX_EXPRESSION ≡ 8192 }
    ensures boot { LAST_BOOT ≡ 2147483647 }
{}
