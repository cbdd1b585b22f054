// The slots' ads.

ghost use Rattle.std.specs.Prelude.{◌≡◌, ◌≢◌, ◌++◌, ◌∷◌, List, MatchOption};
ghost use Rattle.ad_tree.specs.Ad.{Attributes};
ghost use Rattle.pool_shown.specs.Slots.{ads_of, slot_ads};

use ad_tree::Ad;
use startd_core::Startd;
use startd_slot::Slot;

/// What follows the ads of all slots, where they come first.
pub(crate) fn ads_after_all<'a>(ads: &'a [Ad], startds: &[Startd]) -> Option<&'a [Ad]>
    ensures { MatchOption result
        ((more : List Attributes) → ads.now ≢ slot_ads startds.now ++ more)
        (λ rest. ads.now ≡ slot_ads startds.now ++ rest.now) }
{
    let mut left = ads;
    for startd in startds {
        match ads_after(left, startd.slots()) {
            Some(rest) => left = rest,
            None => return None,
        }
    }
    Some(left)
}

// What follows the ads of slots, where they come first.
fn ads_after<'a>(ads: &'a [Ad], slots: &[Slot]) -> Option<&'a [Ad]>
    ensures { MatchOption result
        ((more : List Attributes) → ads.now ≢ ads_of slots.now ++ more)
        (λ rest. ads.now ≡ ads_of slots.now ++ rest.now) }
{
    let mut left = ads;
    for slot in slots {
        match after_first(left, &slot.ad) {
            Some(rest) => left = rest,
            None => return None,
        }
    }
    Some(left)
}

// What follows the first ad, where it is this one.
fn after_first<'a>(ads: &'a [Ad], ad: &Ad) -> Option<&'a [Ad]>
    ensures { MatchOption result ((more : List Attributes) → ads.now ≢ ad.now ∷ more)
        (λ rest. ads.now ≡ ad.now ∷ rest.now) }
{
    let (first, rest) = ads.split_first()?;
    if !first.same(ad) {
        return None;
    }
    Some(rest)
}
