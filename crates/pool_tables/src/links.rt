// Which mails go to the same daemon, as links from each to the one before it.

ghost use Rattle.std.specs.Prelude.{◌≡◌, ◌+◌, ◌<◌, length, slice_get, IfOk};
ghost use Rattle.pool_tables.specs.Links.{at_least, box_of, empty_boxes, last_in, with_last, AreLinked, IsLastBelow, IsNext};
ghost use Rattle.pool_tables.specs.MailLists.{boxes_of};

use crate::sent::Sent;
use ad_value::Memory;
use pool_outer::Daemon;
use std::alloc::Global;

/// The place of a daemon's box: the schedd's, the matchmaker's, and those of the startds.
pub(crate) fn box_of(who: Daemon) -> usize
    ensures { result ≡ box_of who }
{
    match who {
        Daemon::Schedd => 0,
        Daemon::Matchmaker => 1,
        Daemon::Startd(machine) => usize::from(machine) + 2,
    }
}

/// So many boxes with nothing in them.
pub(crate) fn empty_boxes(alloc: Global, count: usize) -> Result<Vec<Option<u64>>, Memory>
    ensures { IfOk result (λ boxes. boxes.items ≡ empty_boxes count) }
{
    let mut boxes = Vec::new(alloc);
    for place in 0..count {
        push_empty(&mut boxes, place)?;
    }
    Ok(boxes)
}

fn push_empty(boxes: &mut Vec<Option<u64>>, place: usize) -> Result<(), Memory>
    ensures { IfOk result (λ _. boxes.old.items ≡ empty_boxes place
        → boxes.new.items ≡ empty_boxes (place + 1)) }
{
    let _ = place;
    boxes.push(None)?;
    Ok(())
}

/// The last number in a box.
pub(crate) fn last_in(last: &[Option<u64>], place: usize) -> Option<u64>
    ensures { result ≡ last_in (slice_get last.now place) }
{
    match last.get(place) {
        Some(last) => *last,
        None => None,
    }
}

/// A box has a new last number.
pub(crate) fn set_last(last: &mut Vec<Option<u64>>, place: usize, number: u64)
    ensures { last.new.items ≡ with_last place number last.old.items }
{
    if place < last.len() {
        last[place] = Some(number);
    }
}

/// The first number from another on in the box whose last number is given. Computes in O(numbers
/// of the box from that one on).
#[tactic(auto, using(crate::proofs::Backwards::from_last))]
pub(crate) fn next_in(
    sent: &[Sent],
    before: &[Option<u64>],
    boxes: usize,
    place: usize,
    last: Option<u64>,
    from: u64,
) -> Option<u64>
    requires linked { AreLinked boxes (boxes_of sent.now) before.now }
    requires place { place < boxes }
    requires last { IsLastBelow (boxes_of sent.now) place (length sent.now) last }
    ensures { IsNext (boxes_of sent.now) place from result }
{
    let _ = sent;
    let _ = boxes;
    let _ = place;
    let mut found = None;
    let mut at = at_least(last, from);
    'back: while let Some(number) = at {
        found = at;
        at = at_least(before_of(before, number), from);
    }
    found
}

// The last number before another in its box.
fn before_of(before: &[Option<u64>], number: u64) -> Option<u64>
    ensures { result ≡ last_in (slice_get before.now number) }
{
    last_in(before, number as usize)
}

// The number, where it is at least another.
fn at_least(number: Option<u64>, from: u64) -> Option<u64>
    ensures { result ≡ at_least number from }
{
    match number {
        Some(number) if from <= number => Some(number),
        _ => None,
    }
}
