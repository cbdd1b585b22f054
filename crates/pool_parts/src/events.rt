// How many printed bytes events count.

ghost use Rattle.std.specs.Prelude.{◌≡◌, ◌+◌, min};
ghost use Rattle.std.specs.Option.{option_copied};
ghost use Rattle.pool_parts.specs.Sizes.{event_count, given_count, judged_count, judgements_count, mismatch_count, none_count};

use crate::Event;
use crate::size::{add_ad, add_ads};
use ad_eval::{Judged, NoMatch};

fn add_judged(size: u64, judged: &Judged) -> u64
    ensures { result ≡ min (size + judged_count judged.now) u64.MAX }
{
    add_ad(add_ad(size, judged.job()), judged.slot())
}

fn add_all_judged(size: u64, judged: &[Judged]) -> u64
    ensures { result ≡ min (size + judgements_count judged.now) u64.MAX }
{
    let mut total = size;
    for one in judged {
        total = add_judged(total, one);
    }
    total
}

fn add_none(size: u64, none: &NoMatch) -> u64
    ensures { result ≡ min (size + mismatch_count none.now) u64.MAX }
{
    add_ads(
        add_ads(size, none.jobs().as_slice()),
        none.slots().as_slice(),
    )
}

fn add_given(size: u64, judged: Option<&Judged>) -> u64
    ensures { result ≡ min (size + given_count (option_copied judged.entry)) u64.MAX }
{
    match judged {
        Some(judged) => add_judged(size, judged),
        None => size,
    }
}

fn add_given_none(size: u64, none: Option<&NoMatch>) -> u64
    ensures { result ≡ min (size + none_count (option_copied none.entry)) u64.MAX }
{
    match none {
        Some(none) => add_none(size, none),
        None => size,
    }
}

/// How many printed bytes the matches of an event and the wants of one count, without memory. Stops
/// at 18446744073709551615. Computes in O(size of the ads).
pub fn event_size(event: &Event) -> u64
    ensures { result ≡ min (event_count event.now) u64.MAX }
{
    match event {
        Event::Receive { judged, none, .. } => {
            add_given_none(add_given(0, judged.as_ref()), none.as_ref())
        }
        Event::Matches { judged, .. } => add_all_judged(0, judged.as_slice()),
        Event::Close { none, .. } => add_none(0, none),
        _ => 0,
    }
}
