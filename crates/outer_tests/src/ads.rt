use ad_tree::{Ad, Expr, SetError};
use ad_value::{Copied, Value};
use std::alloc::Global;
use std::thread::{Threads, join};

fn with_number(alloc: Global, ad: Ad, name: &str, number: i64) -> Result<Ad, SetError> {
    let mut ad = ad;
    ad.set(alloc, name, Expr::of(alloc, &Value::Int(number))?)?;
    Ok(ad)
}

// How many attributes an ad has while a copy of it gets one more in another thread, and how many
// the copy has then.
fn lengths_of_copies(rt: &impl Threads, alloc: Global) -> Result<(usize, usize), SetError> {
    let ad = with_number(alloc, Ad::new(alloc), "Cpus", 1)?;
    let copy = ad.copy(alloc)?;
    let (longer, here) = join(rt, || with_number(alloc, copy, "Memory", 64), || ad.len());
    Ok((here, longer?.len()))
}

#[test]
fn a_copy_of_an_ad_changes_in_another_thread(rt: HostRuntime) {
    assert_eq!(rt; lengths_of_copies(&rt, rt.alloc()), Ok((1, 2)));
}
