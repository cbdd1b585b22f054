ghost use Rattle.std.specs.Prelude.{◌≡◌, IfOk, None, Some};
ghost use Rattle.std.specs.Option.{option_copied, option_map};
ghost use Rattle.ordered_map.specs.Trees.{is_past};
ghost use Rattle.queue_tx.specs.Asked.{asked_cmp, asked_under, is_past_from, least_from, place_of, IdleNamesDiffer, IsListed, SetsPlaces};
ghost use Rattle.queue_tx.specs.Jobs.{kind_under, FirstKey};
ghost use Rattle.queue_tx.specs.Kept.{is_kind};
ghost use Rattle.queue_tx.specs.declared.kind.JobKind.TheVariants.{Idle};
ghost use Rattle.queue_tx.specs.declared.asked.Asked.{Asked};

use crate::kept::Here;
use crate::key::Key;
use crate::kind::{JobKind, kind_under};
use crate::request::request_digest;
use ad_tree::Ad;
use ad_value::Memory;
use ordered_map::{NewEntry, OrderedMap};
use std::alloc::Global;
use std::cmp::Ordering;
use std::ops::Bound;

/// The place of an idle job among the others: by the digest of its request, then by its key. So
/// those that make the same request stand side by side, in order of key.
#[derive(Clone, Copy)]
pub(crate) struct Asked {
    pub(crate) digest: u64,
    pub(crate) key: Key,
}

impl PartialEq for Asked {
    ghost use Rattle.queue_tx.specs.Asked.{same_place, same_place_partial};

    ghost eq = { same_place };

    ghost laws = { same_place_partial };

    fn eq(&self, other: &Asked) -> bool {
        self.cmp(other).is_eq()
    }
}

impl Eq for Asked {
    ghost use Rattle.queue_tx.specs.Asked.{same_place_laws};

    ghost laws = { same_place_laws };
}

impl PartialOrd for Asked {
    ghost use Rattle.std.specs.Ordering.{as_partial_cmp};
    ghost use Rattle.queue_tx.specs.Asked.{asked_cmp, asked_order_laws};

    ghost partial_cmp = { as_partial_cmp asked_cmp };

    ghost laws = { asked_order_laws };

    fn partial_cmp(&self, other: &Asked) -> Option<Ordering> {
        Some(self.cmp(other))
    }
}

impl Ord for Asked {
    ghost use Rattle.std.specs.Prelude.{refl};
    ghost use Rattle.queue_tx.specs.Asked.{asked_cmp, asked_cmp_total};

    ghost cmp = { asked_cmp };

    ghost total = { asked_cmp_total };

    ghost matches_partial_cmp = { λ x y. refl };

    ghost matches_eq = { λ x y. refl };

    fn cmp(&self, other: &Asked) -> Ordering {
        self.digest
            .cmp(&other.digest)
            .then(self.key.cmp(&other.key))
    }
}

pub(crate) type AskedSet = OrderedMap<Asked, Here>;

// The place of what stands under a key, where it is an idle job.
pub(crate) fn asked_under(key: &Key, ad: Option<&Ad>) -> Option<Asked>
    ensures { result ≡ asked_under key.now (option_copied ad.entry) }
{
    place_of(key, ad?)
}

// The place of an ad under a key.
pub(crate) fn place_of(key: &Key, ad: &Ad) -> Option<Asked>
    ensures place { result ≡ place_of key.now ad.now }
    ensures names { IdleNamesDiffer key.now ad.now }
{
    if is_idle(key, ad) {
        Some(Asked {
            digest: request_digest(ad),
            key: *key,
        })
    } else {
        None
    }
}

fn is_idle(key: &Key, ad: &Ad) -> bool
    ensures { result ≡ is_kind Idle (kind_under key.now (Some ad.now)) }
{
    match kind_under(key, ad) {
        Some(JobKind::Idle) => true,
        Some(JobKind::Held) => false,
        Some(JobKind::Under) => false,
        None => false,
    }
}

// The first idle job of a digest past a bound.
pub(crate) fn first_asked<'a>(
    places: &'a AskedSet,
    digest: u64,
    start: Bound<&Key>,
) -> Option<&'a Key>
    ensures { FirstKey (IsListed digest places.now) start.entry (option_copied result) }
{
    let least = least_from(digest, start);
    let (asked, _) = places.first_past(bound_from(&least, start))?;
    if asked.digest == digest {
        Some(&asked.key)
    } else {
        None
    }
}

// The place of a digest at which a bound stands.
fn least_from(digest: u64, start: Bound<&Key>) -> Asked
    ensures { result ≡ least_from digest start.entry }
{
    match start {
        Bound::Included(key) => Asked { digest, key: *key },
        Bound::Excluded(key) => Asked { digest, key: *key },
        Bound::Unbounded => Asked {
            digest,
            key: Key::Header,
        },
    }
}

// The bound that stands there.
fn bound_from<'a>(least: &'a Asked, start: Bound<&Key>) -> Bound<&'a Asked>
    ensures { (a : Asked) → is_past asked_cmp result a ≡ is_past_from start.entry least.now a }
{
    match start {
        Bound::Included(_) => Bound::Included(least),
        Bound::Excluded(_) => Bound::Excluded(least),
        Bound::Unbounded => Bound::Included(least),
    }
}

// A job gives up its old place, and has a new one from now on.
pub(crate) fn replace(places: &mut AskedSet, old: Option<Asked>, new: Option<NewEntry<Asked, Here>>)
    ensures { SetsPlaces old (option_map (λ e. e.0) new) places.old places.new }
{
    give_up(places, old);
    take(places, new);
}

fn give_up(places: &mut AskedSet, place: Option<Asked>)
    ensures { SetsPlaces place None places.old places.new }
{
    if let Some(asked) = place {
        let _ = places.remove(&asked);
    }
}

fn take(places: &mut AskedSet, place: Option<NewEntry<Asked, Here>>)
    ensures { SetsPlaces None (option_map (λ e. e.0) place) places.old places.new }
{
    if let Some(entry) = place {
        places.put(entry);
    }
}

// A place with the memory for it in the set.
pub(crate) fn new_place(
    alloc: Global,
    place: Option<Asked>,
) -> Result<Option<NewEntry<Asked, Here>>, Memory>
    ensures { IfOk result (λ new. option_map (λ e. e.0) new ≡ place) }
{
    match place {
        None => Ok(None),
        Some(asked) => Ok(Some(NewEntry::new(alloc, asked, Here)?)),
    }
}
