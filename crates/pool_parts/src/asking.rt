// Whether an ad is what slots are judged with of a job.

ghost use Rattle.std.specs.Prelude.{◌≡◌, ◌≢◌, ◌↔◌, ◌+◌, ◌<◌, ◌≤◌, IsTrue, MatchOption, Some, drop, length, slice_get};
ghost use Rattle.ad_tree.specs.declared.ad.TheConstants.{MAX_ATTRIBUTES};
ghost use Rattle.ad_tree.specs.Tree.{tree};
ghost use Rattle.pool_mail.specs.Ads.{request_ad};

use ad_tree::{Ad, Expr};
use ad_value::names::is_run_name;

/// Whether an ad is that with which slots are judged of a job with the other one, as spelled and in
/// the same order, without memory. Computes in O(size of the smaller).
pub fn is_request_of(request: &Ad, ad: &Ad) -> bool
    ensures { IsTrue result ↔ (request.now ≡ request_ad ad.now) }
{
    let (length, own_length) = (request.len(), ad.len());
    let mut place = 0;
    for own in 0..own_length {
        match place_after(request, place, ad, own) {
            Some(next) => place = next,
            None => return false,
        }
    }
    place == length
}

// Where the request goes on after an attribute of the job's ad, if it goes on with it, or if the
// attribute is no part of the request.
fn place_after(request: &Ad, place: usize, ad: &Ad, own: usize) -> Option<usize>
    requires size { length request.now ≤ MAX_ATTRIBUTES }
    requires place { place ≤ length request.now }
    requires own { own < length ad.now }
    ensures { MatchOption result (drop place request.now ≢ request_ad (drop own ad.now)) (λ next.
        (next ≤ length request.now) × ((drop place request.now ≡ request_ad (drop own ad.now))
        ↔ (drop next request.now ≡ request_ad (drop (own + 1) ad.now)))) }
{
    let (name, expr) = ad.attribute(own)?;
    if is_run_name(name) {
        return Some(place);
    }
    if is_attribute_at(request, place, name, expr) {
        return Some(place + 1);
    }
    None
}

// Whether the ad has that attribute at that place.
fn is_attribute_at(ad: &Ad, place: usize, name: &str, expr: &Expr) -> bool
    ensures { IsTrue result ↔ (slice_get ad.now place ≡ Some (name.now, tree expr.now)) }
{
    match ad.attribute(place) {
        Some((own_name, own)) => own_name == name && own.same(expr),
        None => false,
    }
}
