use ad_tree::{Ad, Expr, SetError};
use ad_value::{Copied, Value};
use queue_tx::{Key, Queue};
use std::alloc::Global;
use std::ops::Bound;

/// Asks, from each proc of the queue on, for the first idle job that makes the request of an ad.
/// How often there was one.
pub(crate) fn ask_from_each(queue: &Queue, ad: &Ad) -> u64 {
    let mut found = 0u64;
    let mut key = Key::Header;
    for _ in 0..u64::MAX {
        let Some(next) = queue.after(Some(&key)).copied() else {
            break;
        };
        if queue.first_asking(ad, Bound::Included(&next)).is_some() {
            found = found.saturating_add(1);
        }
        key = next;
    }
    found
}

/// An ad that makes another request.
pub(crate) fn other_request(alloc: Global, ad: &Ad) -> Result<Ad, SetError> {
    let mut other = ad.copy(alloc)?;
    other.set(alloc, "RequestMemory", Expr::Lit(Value::Int(65)))?;
    Ok(other)
}
