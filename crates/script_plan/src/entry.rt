// What a line of a script says.

ghost use Rattle.std.specs.Prelude.{◌≡◌, ◌↔◌};
ghost use Rattle.script_plan.specs.declared.entry.Entry.{Entry};
ghost use Rattle.script_plan.specs.Entries.{Says, SaysAfter, wish_in, lost_in, repeated_in, late_in, crash_in, load_in, is_load};

use crate::orders::order;
use crate::storms::{crash, load, mail};
use ad_value::{Seq, Text, TextList};
use claim_id::Wish;

/// A daemon's crash.
#[derive(Clone, Copy)]
pub struct Crash {
    /// The machine whose daemon it is, by its place in the configuration; none for the schedd.
    pub machine: Option<u16>,
    /// After which of the daemon's points it crashes, from 1. Each act that is accepted, and each
    /// append without error, is a point.
    pub point: u64,
}

/// A large submission that is made from a number.
#[derive(Clone, Copy)]
pub struct Load {
    /// At most `MAX_LOAD_NUMBER`.
    pub number: u32,
    /// From 1 to `MAX_LOAD_JOBS`.
    pub jobs: u32,
}

/// What a line of a script says.
#[derive(Clone, Copy)]
pub enum Entry {
    /// `at`: an order is given.
    Order(Wish),
    /// `lose`: the mail of this number is not received. Mails count from 0.
    Lose(u64),
    /// `repeat`: the mail of this number is received twice.
    Repeat(u64),
    /// `late`: the mail of this number is received after the next one to the same daemon, or when
    /// that daemon is otherwise idle.
    Late(u64),
    /// `crash`: a daemon crashes.
    Crash(Crash),
    /// `load`: one submission more, after the submit files.
    Load(Load),
}

/// A list of orders.
pub type WishList = Seq<Wish>;

/// A list of numbers.
pub type NumberList = Seq<u64>;

/// A list of crashes.
pub type CrashList = Seq<Crash>;

/// What the words of a line say; none where they are no line's of a script. Computes in O(bytes of
/// the words and of the machines' names).
pub(crate) fn entry_of(machines: &TextList, words: &[Text]) -> Option<Entry>
    ensures { (e : Entry) → (result ≡ Some e) ↔ Says machines.now words.now e }
{
    let [first, rest @ ..] = words else {
        return None;
    };
    entry_after(machines, first.as_str(), rest)
}

// What a line's first word and the words behind it say.
fn entry_after(machines: &TextList, first: &str, rest: &[Text]) -> Option<Entry>
    ensures { (e : Entry) → (result ≡ Some e) ↔ SaysAfter machines.now first.now rest.now e }
{
    match first {
        "at" => order(rest).map(Entry::Order),
        "lose" => mail(rest).map(Entry::Lose),
        "repeat" => mail(rest).map(Entry::Repeat),
        "late" => mail(rest).map(Entry::Late),
        "crash" => crash(machines, rest).map(Entry::Crash),
        "load" => load(rest).map(Entry::Load),
        _ => None,
    }
}

impl Entry {
    /// The order that a line says. Computes in O(1).
    pub(crate) fn wish(&self) -> Option<Wish>
        ensures { result ≡ wish_in self.now }
    {
        match self {
            Entry::Order(wish) => Some(*wish),
            _ => None,
        }
    }

    /// The mail that a line loses. Computes in O(1).
    pub(crate) fn lost(&self) -> Option<u64>
        ensures { result ≡ lost_in self.now }
    {
        match self {
            Entry::Lose(number) => Some(*number),
            _ => None,
        }
    }

    /// The mail that a line repeats. Computes in O(1).
    pub(crate) fn repeated(&self) -> Option<u64>
        ensures { result ≡ repeated_in self.now }
    {
        match self {
            Entry::Repeat(number) => Some(*number),
            _ => None,
        }
    }

    /// The mail that a line delays. Computes in O(1).
    pub(crate) fn late(&self) -> Option<u64>
        ensures { result ≡ late_in self.now }
    {
        match self {
            Entry::Late(number) => Some(*number),
            _ => None,
        }
    }

    /// The crash that a line says. Computes in O(1).
    pub(crate) fn crash(&self) -> Option<Crash>
        ensures { result ≡ crash_in self.now }
    {
        match self {
            Entry::Crash(crash) => Some(*crash),
            _ => None,
        }
    }

    /// The load that a line says. Computes in O(1).
    pub(crate) fn load(&self) -> Option<Load>
        ensures { result ≡ load_in self.now }
    {
        match self {
            Entry::Load(load) => Some(*load),
            _ => None,
        }
    }

    /// Whether a line says a load. Computes in O(1).
    pub(crate) fn is_load(&self) -> bool
        ensures { result ≡ is_load self.now }
    {
        matches!(self, Entry::Load(_))
    }
}
