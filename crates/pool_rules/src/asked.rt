// Whether ads are what jobs ask for.

ghost use Rattle.std.specs.Prelude.{◌≡◌, ◌≢◌, ◌↔◌, ◌∷◌, ◌++◌, IsTrue, List, MatchOption};
ghost use Rattle.ad_tree.specs.Ad.{Attributes};
ghost use Rattle.pool_mail.specs.Ads.{request_ad};
ghost use Rattle.pool_rules.specs.Judging.{asked_ad, asked_ads};
ghost use Rattle.queue_tx.specs.declared.key.Key.TheVariants.{Proc};
ghost use Rattle.queue_tx.specs.Queues.{ad_at};

use ad_tree::Ad;
use claim_id::JobId;
use pool_parts::is_request_of;
use queue_tx::{Key, Queue};

/// Whether the ads are what the jobs ask for, in order.
pub(crate) fn are_asked(queue: &Queue, jobs: &[JobId], ads: &[Ad]) -> bool
    ensures { IsTrue result ↔ (ads.now ≡ asked_ads queue.now jobs.now) }
{
    let mut left = ads;
    for job in jobs {
        match after_job(queue, *job, left) {
            Some(rest) => left = rest,
            None => return false,
        }
    }
    left.is_empty()
}

// What follows what a job asks for, where that comes first.
fn after_job<'a>(queue: &Queue, job: JobId, ads: &'a [Ad]) -> Option<&'a [Ad]>
    ensures { MatchOption result
        ((more : List Attributes) → ads.now ≢ asked_ad (ad_at (Proc job) queue.now) ++ more)
        (λ rest. ads.now ≡ asked_ad (ad_at (Proc job) queue.now) ++ rest.now) }
{
    match queue.get(&Key::Proc(job)) {
        Some(ad) => after_asked(ad, ads),
        None => Some(ads),
    }
}

fn after_asked<'a>(ad: &Ad, ads: &'a [Ad]) -> Option<&'a [Ad]>
    ensures { MatchOption result
        ((more : List Attributes) → ads.now ≢ request_ad ad.now ∷ more)
        (λ rest. ads.now ≡ request_ad ad.now ∷ rest.now) }
{
    let (first, rest) = ads.split_first()?;
    if !is_request_of(first, ad) {
        return None;
    }
    Some(rest)
}
