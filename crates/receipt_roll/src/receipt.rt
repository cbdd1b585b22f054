ghost use Rattle.std.specs.Prelude.{◌≡◌, ◌<◌, Ok};
ghost use Rattle.receipt_roll.specs.declared.roll.TheConstants.{MAX_ITEMS};

use crate::scribe::Witness;
use ad_value::{Copied, Memory};
use std::alloc::Global;
use std::marker::Model;

/// A token that says which roll it is of. Contracts see it as a `RollMark`. It takes no bytes, and
/// no program can compare two. Its copy never fails, and computes in O(1), without memory.
pub struct Mark<T> {
    pub(crate) witness: Witness<T>,
}

impl<T> Drop for Mark<T> {
    fn drop(self) {
        let Mark { witness: _witness } = self;
    }
}

impl<T> Model for Mark<T> {
    ghost use Rattle.receipt_roll.specs.Values.{RollMark};

    ghost Value = { RollMark };

    ghost view = { λ m. m.witness.mark };
}

impl<T> Copied for Mark<T> {
    fn copy(&self, _: Global) -> Result<Mark<T>, Memory>
        ensures { result ≡ Ok self.now }
    {
        Ok(Mark {
            witness: self.witness.again(),
        })
    }
}

/// Proof that an item stands on a roll at a number, whatever thread holds it. Contracts see it as a
/// `ReceiptValue`: the number, the item, and the roll's mark.
#[derive(Drop)]
pub struct Receipt<T> {
    pub(crate) number: u64,
    pub(crate) item: T,
    pub(crate) witness: Witness<T>,
}

impl<T> Model for Receipt<T> {
    ghost use Rattle.receipt_roll.specs.Values.{ReceiptValue};

    ghost Value = { ReceiptValue T };

    ghost view = { λ r. record { number = r.number; item = r.item; mark = r.witness.mark } };

    ghost use Rattle.receipt_roll.specs.Receipt.{IsWitnessed};

    ghost invariant = { λ r. IsWitnessed r };
}

impl<T> Receipt<T> {
    /// The item's place on the roll, from 0. Computes in O(1).
    pub fn number(&self) -> u64
        ensures number { result ≡ self.now.number }
        ensures within { result < MAX_ITEMS }
    {
        self.number
    }

    /// The receipt's item, which equals the roll's. Computes in O(1).
    pub fn item(&self) -> &T
        ensures { result.now ≡ self.now.item }
    {
        &self.item
    }
}
