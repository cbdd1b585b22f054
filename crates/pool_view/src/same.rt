ghost use Rattle.std.specs.Prelude.{◌≡◌, ◌≢◌, ◌↔◌, ◌+◌, ◌<◌, ◌≤◌, IsTrue, MatchOption, Some, drop, length, slice_get};
ghost use Rattle.ad_tree.specs.declared.ad.TheConstants.{MAX_ATTRIBUTES};
ghost use Rattle.ad_tree.specs.Tree.{tree};
ghost use Rattle.pool_view.specs.Ads.{core_of};

use crate::run::Run;
use ad_eval::Judged;
use ad_tree::{Ad, Expr};
use ad_value::names::is_pool_name;

impl Run {
    /// Whether both are the same, the ads of their matches as spelled and in the same order,
    /// without memory. Computes in O(size of the smaller).
    pub fn same(&self, other: &Run) -> bool
        ensures { IsTrue result ↔ (self.now ≡ other.now) }
    {
        self.slot == other.slot
            && self.run == other.run
            && self.job == other.job
            && self.until == other.until
            && is_same_match(&self.judged, &other.judged)
    }
}

// Whether both are the same match.
fn is_same_match(own: &Judged, other: &Judged) -> bool
    ensures { IsTrue result ↔ (own.now ≡ other.now) }
{
    if !own.job().same(other.job()) {
        return false;
    }
    if !own.slot().same(other.slot()) {
        return false;
    }
    own.at() == other.at()
}

// Whether an ad is the part of a job's ad that nothing changes.
pub(crate) fn is_core_of(core: &Ad, ad: &Ad) -> bool
    ensures { IsTrue result ↔ (core.now ≡ core_of ad.now) }
{
    let (length, own_length) = (core.len(), ad.len());
    let mut place = 0;
    for own in 0..own_length {
        match place_after(core, place, ad, own) {
            Some(next) => place = next,
            None => return false,
        }
    }
    place == length
}

// Where the core goes on after an attribute of the job's ad, if it goes on with it, or if the
// attribute is no part of the core.
fn place_after(core: &Ad, place: usize, ad: &Ad, own: usize) -> Option<usize>
    requires size { length core.now ≤ MAX_ATTRIBUTES }
    requires place { place ≤ length core.now }
    requires own { own < length ad.now }
    ensures { MatchOption result (drop place core.now ≢ core_of (drop own ad.now)) (λ next.
        (next ≤ length core.now) × ((drop place core.now ≡ core_of (drop own ad.now))
        ↔ (drop next core.now ≡ core_of (drop (own + 1) ad.now)))) }
{
    let (name, expr) = ad.attribute(own)?;
    if is_pool_name(name) {
        return Some(place);
    }
    if is_attribute_at(core, place, name, expr) {
        return Some(place + 1);
    }
    None
}

// Whether the ad has that attribute at that place.
fn is_attribute_at(ad: &Ad, place: usize, name: &str, expr: &Expr) -> bool
    ensures { IsTrue result ↔ (slice_get ad.now place ≡ Some (name.now, tree expr.now)) }
{
    match ad.attribute(place) {
        Some((own_name, own)) => own_name == name && own.same(expr),
        None => false,
    }
}
