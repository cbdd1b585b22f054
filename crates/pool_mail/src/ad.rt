ghost use Rattle.std.specs.Prelude.{◌≡◌, IfOk};
ghost use Rattle.pool_mail.specs.Ads.{owner_of, request_ad};

use ad_tree::{Ad, Expr};
use ad_value::names::job::OWNER;
use ad_value::names::pool::{LEASE_UNTIL, RUN_CLAIM, RUN_NUMBER};
use ad_value::{Copied, Memory, Value};
use std::alloc::Global;

/// The user whose job it is (HTCondor manual, Job ClassAd Attributes, Owner), with case. An Owner
/// that is not there, or is no literal string, is the user of the empty name. Computes in O(1)
/// where names do not collide, without memory.
pub fn owner_of(ad: &Ad) -> &str
    ensures { result.now ≡ owner_of ad.now }
{
    match ad.get(OWNER) {
        Some(Expr::Lit(Value::Str(owner))) => owner.as_str(),
        _ => "",
    }
}

/// A copy of a job's ad without what the job has only while it runs: the ad that slots are judged
/// with, and that mails carry. Computes in O(attributes).
pub fn request_ad(alloc: Global, ad: &Ad) -> Result<Ad, Memory>
    ensures { IfOk result (λ copied. copied ≡ request_ad ad.now) }
{
    // No two names of an ad are the same, which its length tells.
    let _attributes = ad.len();
    let mut copied = ad.copy(alloc)?;
    copied.remove(RUN_CLAIM);
    copied.remove(RUN_NUMBER);
    copied.remove(LEASE_UNTIL);
    Ok(copied)
}
