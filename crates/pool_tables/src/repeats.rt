// How often mails may be received again.

ghost use Rattle.std.specs.Prelude.{◌≡◌, ◌+◌, ℕ, IfOk, OnOk};
ghost use Rattle.pool_tables.specs.Repeats.{AreCounts, is_number, times_in, times_of};

use ad_value::{Copied, Memory};
use ordered_map::{NewEntry, OrderedMap};
use std::alloc::Global;
use std::marker::Model;

/// How often more than once a mail may be received, by its number.
pub(crate) type Repeats = OrderedMap<u64, Times>;

/// How often. Contracts see the number.
#[derive(Drop)]
pub(crate) struct Times {
    count: u64,
}

impl Model for Times {
    ghost use Rattle.std.specs.Prelude.{ℕ};

    ghost Value = { ℕ };

    ghost view = { λ t. t.count };
}

impl Copied for Times {
    fn copy(&self, _: Global) -> Result<Times, Memory> {
        Ok(Times { count: self.count })
    }
}

/// One time for each number. Memory too where a count is at its end.
#[tactic(auto, using(crate::proofs::Counting::counted))]
pub(crate) fn count_repeats(alloc: Global, numbers: &[u64]) -> Result<Repeats, Memory>
    ensures times { IfOk result (λ r. (n : ℕ) → times_of n r ≡ times_in n numbers.now) }
    ensures counts { IfOk result AreCounts }
{
    let mut repeats = OrderedMap::new();
    let mut left = numbers;
    'numbers: while let Some((number, rest)) = left.split_first() {
        count_one(alloc, &mut repeats, *number)?;
        left = rest;
    }
    Ok(repeats)
}

// One time more for a number.
#[tactic(auto, using(crate::proofs::Counting::one_more, crate::proofs::Counting::still_counts))]
fn count_one(alloc: Global, repeats: &mut Repeats, number: u64) -> Result<(), Memory>
    requires { AreCounts repeats.old }
    ensures times { OnOk result ((n : ℕ) → times_of n repeats.new
        ≡ is_number number n + times_of n repeats.old) }
    ensures counts { OnOk result (AreCounts repeats.new) }
{
    let times = times_of(repeats, number);
    if times >= u64::MAX - 2 {
        return Err(Memory);
    }
    let more = Times { count: times + 1 };
    let entry = NewEntry::new(alloc, number, more)?;
    repeats.put(entry);
    Ok(())
}

/// How often more than once a mail may be received.
pub(crate) fn times_of(repeats: &Repeats, number: u64) -> u64
    ensures { result ≡ times_of number repeats.now }
{
    match repeats.get(&number) {
        Some(times) => times.count,
        None => 0,
    }
}
