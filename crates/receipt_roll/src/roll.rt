ghost use Rattle.std.specs.Prelude.{◌≡◌, ◌↔◌, ◌+◌, ◌<◌, ◌≤◌, ◌++◌, ◌∷◌, [], length, slice_get, Some, Err, IsTrue, IsOk, OnOk, IfOk, OnErr};
ghost use Rattle.std.specs.Option.{option_copied};
ghost use Rattle.std.specs.Borrow.{sem};
ghost use Rattle.receipt_roll.specs.declared.error.RollError.TheVariants as error;
ghost use Rattle.receipt_roll.specs.declared.roll.TheConstants.{MAX_ITEMS};
ghost use Rattle.receipt_roll.specs.Values.{next_receipt};

use crate::error::RollError;
use crate::receipt::{Mark, Receipt};
use crate::scribe::Scribe;
use std::alloc::Global;
use std::marker::Model;

/// How many items a roll may have.
pub const MAX_ITEMS: u64 = 1_048_576;

/// A list that only grows. Contracts see it as a `RollValue`: its items in order, how many more of
/// them take no memory (`spare`), and which roll it is (`mark`).
#[derive(Drop)]
pub struct Roll<T> {
    items: Vec<T>,
    spare: u64,
    scribe: Scribe<T>,
}

impl<T> Model for Roll<T> {
    ghost use Rattle.receipt_roll.specs.Values.{RollValue};

    ghost Value = { RollValue T };

    ghost view = { λ r. record { list = r.items.items; spare = r.spare; mark = r.scribe.mark } };

    ghost use Rattle.receipt_roll.specs.Roll.{IsRoll};

    ghost invariant = { λ r. IsRoll r };
}

impl<T> Roll<T> {
    ghost use Rattle.receipt_roll.specs.Lending.{StaysSame};

    /// An empty roll. Takes no memory.
    pub fn new(alloc: Global) -> Roll<T>
        ensures list { result.list ≡ [] }
        ensures spare { result.spare ≡ 0 }
    {
        Roll {
            items: Vec::new(alloc),
            spare: 0,
            scribe: Scribe::new(),
        }
    }

    /// A token of the roll's mark. Takes no memory.
    pub fn mark(&self) -> Mark<T>
        ensures { result ≡ self.now.mark }
    {
        Mark {
            witness: self.scribe.witness(),
        }
    }

    /// How many items there are, which is the number of the next receipt. Computes in O(1).
    pub fn len(&self) -> u64
        ensures len { result ≡ length self.now.list }
        ensures within { result + self.now.spare ≤ MAX_ITEMS }
    {
        self.items.len() as u64
    }

    /// Whether there is no item. Computes in O(1).
    pub fn is_empty(&self) -> bool
        ensures { IsTrue result ↔ (self.now.list ≡ []) }
    {
        self.items.is_empty()
    }

    /// The item at a number, from 0. Computes in O(1).
    pub fn get(&self, number: u64) -> Option<&T>
        ensures { option_copied result ≡ slice_get self.now.list number }
    {
        self.items.get(number as usize)
    }

    /// The items, in the order of their numbers. Computes in O(1).
    pub fn items(&self) -> &[T]
        ensures { result.now ≡ self.now.list }
    {
        self.items.as_slice()
    }

    /// Makes `spare` at least `count`, so that so many appends answer `Ok` and take no memory.
    /// Computes in O(items), and in O(1) where `spare` is large enough. After an error the roll is
    /// as it was.
    pub fn room(&mut self, count: u64) -> Result<(), RollError>
        // What it gives, and what it leaves as it is.
        ensures room { OnOk result (count ≤ self.new.spare) }
        ensures kept { self.old.spare ≤ self.new.spare }
        ensures list { self.new.list ≡ self.old.list }
        ensures mark { self.new.mark ≡ self.old.mark }

        // When it is refused, and that a refusal changes nothing.
        ensures ready { count ≤ self.old.spare → IsOk result }
        ensures full { (result ≡ Err error.Full) ↔ (MAX_ITEMS < length self.old.list + count) }
        ensures err { OnErr result (self.new ≡ self.old) }
    {
        if count > MAX_ITEMS - self.len() {
            return Err(RollError::Full);
        }
        if self.spare < count {
            self.items.reserve(count as usize)?;
            self.spare = count;
        }
        Ok(())
    }

    /// Makes known that the receipt's item stands on the roll at the receipt's number, whatever
    /// thread held the receipt. Changes nothing and takes no memory. Computes in O(1).
    pub fn confirm(&mut self, receipt: &Receipt<T>)
        requires { receipt.now.mark ≡ self.old.mark }
        ensures same { self.new ≡ self.old }
        ensures item { slice_get self.old.list receipt.now.number ≡ Some receipt.now.item }
    {
        self.scribe.hear(&receipt.witness);
    }

    /// The roll's item at the receipt's number, which equals the receipt's, whatever thread held
    /// the receipt. Changes nothing and takes no memory. Computes in O(1).
    pub fn agree(&mut self, receipt: &Receipt<T>) -> &T
        requires { receipt.now.mark ≡ self.old.mark }
        ensures* same { sem 𝓛 (StaysSame T.row self.entry) }
        ensures item { slice_get self.old.list receipt.now.number ≡ Some result.now }
        ensures equal { result.now ≡ receipt.now.item }
    {
        self.confirm(receipt);
        &self.items[receipt.number as usize]
    }
}

impl<T: Drop> Roll<T> {
    /// Puts an item at the end of the list. The roll keeps `item`, and the receipt `copy`, which
    /// equals it. Takes no memory where `spare` is at least 1; where it is 0, what it is afterwards
    /// is left open. Computes in O(1), with memory on average. After an error the roll is as it
    /// was, and both items are dropped.
    pub fn append(&mut self, item: T, copy: T) -> Result<Receipt<T>, RollError>
        requires { item ≡ copy }

        // What it gives, and what it leaves as it is.
        ensures list { OnOk result (self.new.list ≡ self.old.list ++ item ∷ []) }
        ensures receipt { IfOk result (λ r. r ≡ next_receipt self.old item) }
        ensures spare { 0 < self.old.spare → self.new.spare + 1 ≡ self.old.spare }
        ensures mark { self.new.mark ≡ self.old.mark }

        // When it is refused, and that a refusal changes nothing.
        ensures ready { 0 < self.old.spare → IsOk result }
        ensures full { (result ≡ Err error.Full) ↔ (length self.old.list ≡ MAX_ITEMS) }
        ensures err { OnErr result (self.new ≡ self.old) }
    {
        if self.spare == 0 {
            self.room(1)?;
        }
        let number = self.len();
        self.scribe.add(&item);
        self.items.push(item).unwrap();
        self.spare -= 1;
        Ok(Receipt {
            number,
            item: copy,
            witness: self.scribe.witness(),
        })
    }
}
