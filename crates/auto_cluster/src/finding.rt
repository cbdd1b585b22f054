//! Where a significant part stands among others, by a digest that equal parts have in common.

ghost use Rattle.std.specs.Prelude.{◌≡◌, ◌≢◌, ◌↔◌, ◌∷◌, [], ℕ, Some, Contains, IsTrue, MatchOption, IfOk, OnOk, slice_get};
ghost use Rattle.std.specs.List.{All};
ghost use Rattle.std.specs.Option.{option_map_or};
ghost use Rattle.auto_cluster.specs.Finding.{digest_in, part_digest, places_under};

use ad_rows::attribute_digest;
use ad_tree::Ad;
use ad_value::Memory;
use std::alloc::Global;
use std::collections::HashMap;

// The places of the parts of each digest.
pub(crate) type Places = HashMap<u64, Vec<usize>>;

// A number that equal parts have in common, and others hardly ever have too.
#[tactic(auto, using(crate::proofs::Found::steps))]
pub(crate) fn part_digest(part: &Ad) -> u64
    ensures { result ≡ part_digest part.now }
{
    let mut digest = 0u64;
    for place in 0..part.len() {
        digest = digest.wrapping_add(digest_at(part, place));
    }
    digest
}

// What the attribute at a place adds to it.
fn digest_at(part: &Ad, place: usize) -> u64
    ensures { result ≡ option_map_or digest_in (slice_get part.now place) 0 }
{
    match part.attribute(place) {
        Some((name, expr)) => attribute_digest(name, expr),
        None => 0,
    }
}

// The places that stand under a digest.
pub(crate) fn places_under(places: &Places, digest: u64) -> &[usize]
    ensures { result.now ≡ places_under places.now digest }
{
    match places.get(&digest) {
        Some(list) => list.as_slice(),
        None => &[],
    }
}

// Puts one place more under a digest. An error leaves what stands under each.
pub(crate) fn put_under(
    alloc: Global,
    places: &mut Places,
    digest: u64,
    place: usize,
) -> Result<(), Memory>
    ensures others { (d i : ℕ) → Contains (places_under places.old d) i
        → Contains (places_under places.new d) i }
    ensures put { OnOk result (Contains (places_under places.new digest) place) }
{
    if let Some(list) = places.get_mut(&digest) {
        list.push(place)?;
        return Ok(());
    }
    let list = one_place(alloc, place)?;
    places.insert(digest, list)?;
    Ok(())
}

fn one_place(alloc: Global, place: usize) -> Result<Vec<usize>, Memory>
    ensures { IfOk result (λ list. list.items ≡ place ∷ []) }
{
    let mut list = Vec::with_capacity(alloc, 1)?;
    list.push(place)?;
    Ok(list)
}

// The first of some places at which the part stands.
pub(crate) fn place_among(parts: &[Ad], places: &[usize], part: &Ad) -> Option<usize>
    ensures { MatchOption result
        (All (λ i. slice_get parts.now i ≢ Some part.now) places.now)
        (λ i. slice_get parts.now i ≡ Some part.now) }
{
    for place in places {
        if stands_at(parts, *place, part) {
            return Some(*place);
        }
    }
    None
}

fn stands_at(parts: &[Ad], place: usize, part: &Ad) -> bool
    ensures { IsTrue result ↔ (slice_get parts.now place ≡ Some part.now) }
{
    match parts.get(place) {
        Some(other) => other.same(part),
        None => false,
    }
}
