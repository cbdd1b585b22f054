ghost use Rattle.std.specs.Prelude.{◌≡◌, ◌≢◌, ◌∷◌, List, MatchOption};
ghost use Rattle.ad_tree.specs.Ad.{Attributes};
ghost use Rattle.thin_pool.specs.Sameness.{same_ad};

use ad_tree::Ad;

pub(crate) fn is_same(ad: &Ad, other: &Ad) -> bool
    ensures { result ≡ same_ad ad.now other.now }
{
    ad.same(other)
}

// What follows the first ad, where it is this one.
pub(crate) fn after_first<'a>(ads: &'a [Ad], ad: &Ad) -> Option<&'a [Ad]>
    ensures { MatchOption result ((more : List Attributes) → ads.now ≢ ad.now ∷ more)
        (λ rest. ads.now ≡ ad.now ∷ rest.now) }
{
    let (first, rest) = ads.split_first()?;
    if !first.same(ad) {
        return None;
    }
    Some(rest)
}
