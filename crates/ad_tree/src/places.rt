//! The places in a table of an ad's attributes, in the ad's order, a byte each.
ghost use Rattle.std.specs.Prelude.{◌≡◌, ◌≤◌, ◌==◌, slice_get, position, IfOk};
ghost use Rattle.std.specs.List.{range_with_len};

use crate::ad::MAX_ATTRIBUTES;
use ad_value::Memory;
use std::alloc::Global;

/// The place in the table of the attribute that stands here in the ad. Computes in O(1).
pub fn table_place(places: &[u8], here: usize) -> Option<usize>
    ensures { result ≡ slice_get places.now here }
{
    match places.get(here) {
        Some(place) => Some(usize::from(*place)),
        None => None,
    }
}

/// The place in the ad of what stands there in the table. Computes in O(places).
pub fn own_place(places: &[u8], there: usize) -> Option<usize>
    ensures { result ≡ position (λ k. k == there) places.now }
{
    places.iter().position(|place| usize::from(*place) == there)
}

/// All places of a table of so many attributes, and memory for one more. Computes in O(places).
pub fn all_places(alloc: Global, count: usize) -> Result<Vec<u8>, Memory>
    requires { count ≤ MAX_ATTRIBUTES }
    ensures { IfOk result (λ places. places.items ≡ range_with_len 0 count) }
{
    let mut places = Vec::with_capacity(alloc, count + 1)?;
    for place in 0..count {
        places.push(place as u8)?;
    }
    Ok(places)
}
