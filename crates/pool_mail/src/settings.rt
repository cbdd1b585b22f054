ghost use Rattle.std.specs.Prelude.{◌≤◌};
ghost use Rattle.pool_mail.specs.Seconds.{IsSeconds};
ghost use Rattle.pool_mail.specs.declared.settings.TheConstants.{MAX_SECONDS};

use ad_value::{Copied, Memory};
use std::alloc::Global;

/// The most seconds that a pool waits, or lets a lease last.
pub const MAX_SECONDS: u64 = 1_000_000;

/// The seconds that a pool is set to, each at most `MAX_SECONDS`, and at least 1 but for the last
/// two.
#[derive(Clone, Copy)]
pub struct Settings {
    /// How often a slot tells the collector how it stands.
    pub update_interval: u64,
    /// How long a slot that was matched waits for a claim.
    pub match_timeout: u64,
    /// How long a claim lasts that nobody uses.
    pub claim_lease: u64,
    /// How long a run's lease lasts where its job does not say it.
    pub job_lease: u64,
    /// How often the lease of a run is renewed.
    pub alive_interval: u64,
    /// How often the periodic expressions of a job are looked at.
    pub periodic_interval: u64,
    /// How long a run may go on once its claim is to be ended.
    pub retirement: u64,
    /// How long a run that was told to go may still go on.
    pub vacate: u64,
    ghost ranges: { IsSeconds update_interval
        × IsSeconds match_timeout
        × IsSeconds claim_lease
        × IsSeconds job_lease
        × IsSeconds alive_interval
        × IsSeconds periodic_interval
        × (retirement ≤ MAX_SECONDS)
        × (vacate ≤ MAX_SECONDS) },
}

impl Copied for Settings {
    fn copy(&self, _: Global) -> Result<Settings, Memory> {
        Ok(*self)
    }
}
