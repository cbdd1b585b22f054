ghost use Rattle.std.specs.Prelude.{◌≡◌, ◌+◌, ◌*◌, ◌^◌};

use ad_value::{Copied, Memory};
use std::alloc::Global;

/// A job's number (HTCondor manual, Job ClassAd Attributes, ClusterId and ProcId). Jobs stand in
/// order of cluster, then of proc.
#[derive(Clone, Copy, Debug, PartialEq, Eq, PartialOrd, Ord, Hash)]
pub struct JobId {
    /// From 1.
    pub cluster: u32,
    /// From 0.
    pub proc: u32,
}

/// A slot's number (HTCondor manual, Machine ClassAd Attributes, SlotID). Slots stand in order of
/// machine, then of slot.
#[derive(Clone, Copy, Debug, PartialEq, Eq, PartialOrd, Ord, Hash)]
pub struct SlotId {
    /// From 0, in the order of the configuration.
    pub machine: u16,
    /// From 1 on each machine.
    pub slot: u16,
}

/// A claim's number: all of the claim but its secret.
#[derive(Clone, Copy, Debug, PartialEq, Eq)]
pub struct ClaimNo {
    /// The slot that is claimed.
    pub slot: SlotId,
    /// The boot of the slot's machine, as `boot_number` has it.
    pub boot: u64,
    /// From 1 at each boot of the machine.
    pub seq: u64,
}

/// A claim: its number, and the secret that only its machine and its holder are told.
#[derive(Clone, Copy, PartialEq, Eq)]
pub struct ClaimId {
    pub no: ClaimNo,
    pub secret: u64,
}

/// A run's number: its claim's, and its own among all runs of the queue, from 1.
#[derive(Clone, Copy, Debug, PartialEq, Eq)]
pub struct RunNo {
    pub claim: ClaimNo,
    pub number: u64,
}

impl Copied for JobId {
    fn copy(&self, _: Global) -> Result<JobId, Memory> {
        Ok(*self)
    }
}

impl Copied for RunNo {
    fn copy(&self, _: Global) -> Result<RunNo, Memory> {
        Ok(*self)
    }
}

/// The number of a machine's boot: later boots of the pool have greater ones, and so have later
/// restarts of the machine within one boot of the pool. Computes in O(1), without memory.
pub fn boot_number(pool_boot: u32, restarts: u32) -> u64
    ensures { result ≡ pool_boot * 2 ^ 32 + restarts }
{
    u64::from(pool_boot) << 32 | u64::from(restarts)
}
