// Accepted events, as their holders keep them.

ghost use Rattle.std.specs.Prelude.{◌≡◌};
ghost use Rattle.std.specs.Option.{option_copied};
ghost use Rattle.desk.specs.Entries.{entry_of, kept_number, number_of, sort_of};

use ad_value::Seq;
use pool_outer::Daemon;
use pool_parts::{Event, Kept};
use queue_tx::Tx;
use receipt_roll::Receipt;

/// The name of an event.
#[derive(Clone, Copy)]
pub enum Sort {
    Submit,
    Order,
    Receive,
    Tick,
    Check,
    Logged,
    Ended,
    Crash,
    Reopen,
    Matches,
    Close,
}

/// An accepted event, as its holder keeps it.
pub struct Entry {
    /// Its place in the history, from 0.
    pub place: u64,
    /// Whose event it is; none where it is the master's.
    pub who: Option<Daemon>,
    pub sort: Sort,
    /// The number of the receipt of a Logged, of an Ended, or of what a Reopen has kept.
    pub number: Option<u64>,
    /// In seconds since 1970-01-01 00:00:00 UTC.
    pub reading: Option<u64>,
    /// What was answered.
    pub kept: Kept,
}

impl Drop for Entry {
    fn drop(self) {
        let Entry {
            place: _,
            who: _,
            sort: _,
            number: _,
            reading: _,
            kept: _kept,
        } = self;
    }
}

/// A list of entries.
pub type EntryList = Seq<Entry>;

impl Entry {
    /// The entry of an event, by its place in the history and what was answered. Computes in O(1),
    /// without memory.
    pub fn new(place: u64, event: &Event, kept: Kept) -> Entry
        ensures { result ≡ entry_of place event.now kept }
    {
        Entry {
            place,
            who: event.holder(),
            sort: sort_of(event),
            number: number_of(event),
            reading: event.reading(),
            kept,
        }
    }
}

/// The name of an event. Computes in O(1).
pub fn sort_of(event: &Event) -> Sort
    ensures { result ≡ sort_of event.now }
{
    match event {
        Event::Submit { .. } => Sort::Submit,
        Event::Order { .. } => Sort::Order,
        Event::Receive { .. } => Sort::Receive,
        Event::Tick { .. } => Sort::Tick,
        Event::Check { .. } => Sort::Check,
        Event::Logged { .. } => Sort::Logged,
        Event::Ended { .. } => Sort::Ended,
        Event::Crash { .. } => Sort::Crash,
        Event::Reopen { .. } => Sort::Reopen,
        Event::Matches { .. } => Sort::Matches,
        Event::Close { .. } => Sort::Close,
    }
}

/// The number of the receipt of a Logged, of an Ended, or of what a Reopen has kept. Computes in
/// O(1).
pub fn number_of(event: &Event) -> Option<u64>
    ensures { result ≡ number_of event.now }
{
    match event {
        Event::Logged { receipt, .. } => Some(receipt.number()),
        Event::Ended { receipt, .. } => Some(receipt.number()),
        Event::Reopen { kept, .. } => kept_number(kept.as_ref()),
        _ => None,
    }
}

fn kept_number(kept: Option<&Receipt<Tx>>) -> Option<u64>
    ensures { result ≡ kept_number (option_copied kept.entry) }
{
    let receipt = kept?;
    Some(receipt.number())
}
