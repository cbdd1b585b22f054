// The core of a job.

ghost use Rattle.std.specs.Prelude.{◌≡◌, IfOk};
ghost use Rattle.pool_view.specs.Ads.{core_of};

use ad_tree::Ad;
use ad_value::names::job::JOB_STATUS;
use ad_value::names::pool::{
    EXIT_BY_SIGNAL, EXIT_CODE, EXIT_SIGNAL, HOLD_REASON, LEASE_UNTIL, RUN_CLAIM, RUN_NUMBER,
};
use ad_value::{Copied, Memory};
use std::alloc::Global;

/// A copy of a job's ad without what the pool itself writes there. Computes in O(attributes).
pub fn core_ad(alloc: Global, ad: &Ad) -> Result<Ad, Memory>
    ensures { IfOk result (λ core. core ≡ core_of ad.now) }
{
    // No two names of an ad are the same, which its length tells.
    let _attributes = ad.len();
    let mut core = ad.copy(alloc)?;
    core.remove(JOB_STATUS);
    core.remove(HOLD_REASON);
    core.remove(EXIT_BY_SIGNAL);
    core.remove(EXIT_CODE);
    core.remove(EXIT_SIGNAL);
    core.remove(RUN_CLAIM);
    core.remove(RUN_NUMBER);
    core.remove(LEASE_UNTIL);
    Ok(core)
}
