//! The tokens of who may add to a list, and of who has seen it. The list stands in proofs alone.
ghost use Rattle.std.specs.Prelude.{◌≡◌, ◌++◌, ◌∷◌, []};
ghost use mathlib.Core.List.{IsPrefix};

use crate::rule::{Knowledge, StepWord};
use crate::steps::{add_item, look, make_right};
use logbook::{Pen, Seen, Start, Word};
use std::marker::Model;

/// The one who adds to a list, and so knows it whole. Contracts see the list and its mark.
#[derive(Drop)]
pub struct Scribe<T> {
    word: StepWord<T>,
    /// The log when the list's first right was the newest one.
    first: Knowledge<T>,
    seen: Knowledge<T>,
    /// The right to add the next item.
    pen: Pen,
}

impl<T> Model for Scribe<T> {
    ghost use Rattle.receipt_roll.specs.Values.{MarkedList, marked_list};

    ghost Value = { MarkedList T };

    ghost view = { λ s. marked_list s.first.book s.first.log s.seen.log };

    ghost use Rattle.receipt_roll.specs.Scribe.{MayAdd};

    ghost invariant = { λ s. MayAdd s };
}

/// One who has seen a beginning of a list. Contracts see that beginning and the list's mark.
pub struct Witness<T> {
    first: Knowledge<T>,
    seen: Knowledge<T>,
}

impl<T> Drop for Witness<T> {
    fn drop(self) {
        let Witness {
            first: _first,
            seen: _seen,
        } = self;
    }
}

impl<T> Model for Witness<T> {
    ghost use Rattle.receipt_roll.specs.Values.{MarkedList, marked_list};

    ghost Value = { MarkedList T };

    ghost view = { λ w. marked_list w.first.book w.first.log w.seen.log };

    ghost use Rattle.std.specs.Prelude.{◌≡◌};

    ghost invariant = { λ w. w.seen.book ≡ w.first.book };
}

impl<T> Witness<T> {
    /// One who has seen the same.
    pub fn again(&self) -> Witness<T>
        ensures { result ≡ self.now }
    {
        let first = self.first.again();
        let seen = self.seen.again();
        Witness { first, seen }
    }
}

impl<T> Scribe<T> {
    /// The scribe of a list of its own, which is empty.
    pub fn new() -> Scribe<T>
        ensures { result.list ≡ [] }
    {
        let (mut seen, mut first_pen, _second_pen) = Seen::open(Start::alone(), 0, 0);
        let word: StepWord<T> = Word::tracked(0, &mut first_pen);
        let pen = make_right(&word, &mut seen);
        Scribe {
            word,
            first: seen.again(),
            seen,
            pen,
        }
    }

    /// Adds an item at the end.
    pub fn add(&mut self, item: &T)
        ensures list { self.new.list ≡ self.old.list ++ item.now ∷ [] }
        ensures mark { self.new.mark ≡ self.old.mark }
    {
        add_item(&self.word, &mut self.seen, &mut self.pen, item);
    }

    /// One who has seen the list as it is now.
    pub fn witness(&self) -> Witness<T>
        ensures { result ≡ self.now }
    {
        Witness {
            first: self.first.again(),
            seen: self.seen.again(),
        }
    }

    /// What a witness of the list has seen, the list begins with. Changes nothing.
    pub fn hear(&mut self, witness: &Witness<T>)
        requires { witness.now.mark ≡ self.old.mark }
        ensures same { self.new ≡ self.old }
        ensures seen { IsPrefix witness.now.list self.old.list }
    {
        self.seen.learn(&witness.seen);
        look(&self.word, &mut self.seen, &mut self.pen);
    }
}
