ghost use Rattle.std.specs.Prelude.{◌≡◌};
ghost use Rattle.std.specs.List.{list_any};
ghost use Rattle.ad_value.specs.Names.{same_name};
ghost use Rattle.queue_tx.specs.Room.{header_names, is_full_of_own, is_kept_name, lacks_room, most_own, own_at, own_count};

use crate::key::Key;
use crate::names::{MAX_OWN_OF_HEADER, MAX_OWN_OF_PROC, MOVING, NEXT_CLUSTER_NUM, NEXT_RUN_NUM};
use ad_tree::Ad;
use ad_value::names::is_pool_name;
use ad_value::same_name;

/// Whether the ad under a key has no room for an attribute of that name, without memory. Computes
/// in O(attributes) where the ad has many, and else as `Ad::get`.
pub fn lacks_room(key: &Key, name: &str, ad: &Ad) -> bool
    ensures { result ≡ lacks_room key.now name.now ad.now }
{
    ad.is_full_for(name) || is_full_of_own(key, name, ad)
}

// Whether a new name that the pool does not set would be one too many.
fn is_full_of_own(key: &Key, name: &str, ad: &Ad) -> bool
    ensures { result ≡ is_full_of_own key.now name.now ad.now }
{
    ad.get(name).is_none() && !is_kept_name(key, name) && own_count(key, ad) >= most_own(key)
}

// Whether the pool itself sets the attribute in the ad under a key.
fn is_kept_name(key: &Key, name: &str) -> bool
    ensures { result ≡ is_kept_name key.now name.now }
{
    match key {
        Key::Header => is_header_name(name),
        Key::Proc(_) => is_pool_name(name),
    }
}

fn is_header_name(name: &str) -> bool
    ensures { result ≡ list_any (same_name name.now) header_names }
{
    same_name(name, NEXT_CLUSTER_NUM) || same_name(name, NEXT_RUN_NUM) || same_name(name, MOVING)
}

// How many attributes the ad under a key may have beside those.
fn most_own(key: &Key) -> usize
    ensures { result ≡ most_own key.now }
{
    match key {
        Key::Header => MAX_OWN_OF_HEADER,
        Key::Proc(_) => MAX_OWN_OF_PROC,
    }
}

// How many there are.
#[tactic(auto, using(crate::proofs::Owns::steps))]
fn own_count(key: &Key, ad: &Ad) -> usize
    ensures { result ≡ own_count key.now ad.now }
{
    let mut count = 0usize;
    for place in 0..ad.len() {
        count += own_at(key, ad, place);
    }
    count
}

// 1 where the attribute at a place is one of them, else 0.
fn own_at(key: &Key, ad: &Ad, place: usize) -> usize
    ensures { result ≡ own_at key.now ad.now place }
{
    match ad.attribute(place) {
        Some((name, _)) if !is_kept_name(key, name) => 1,
        _ => 0,
    }
}
