//! The three steps, over the parts of which a roll is made.
ghost use Rattle.std.specs.Prelude.{◌≡◌, [], ◌∷◌};
ghost use mathlib.Core.List.{IsPrefix};
ghost use Rattle.logbook.specs.Pages.{may_write};
ghost use Rattle.receipt_roll.specs.Growth.{items_since, last_right, newest_right};
ghost use Rattle.receipt_roll.specs.Steps.{EachRollOf, GrowsBy, IsStepWord};

use crate::rule::{AddItem, Knowledge, Look, MakeRight, NoGain, NoTrade, Nothing, StepWord};
use logbook::{Pen, Word};

/// Makes a right, and gives the pen that may use it.
pub fn make_right<T>(word: &StepWord<T>, seen: &mut Knowledge<T>) -> Pen
    requires word { IsStepWord word.now }
    requires book { seen.old.book ≡ word.now.book }
    ensures book { (seen.new.book ≡ seen.old.book) × (result.book ≡ seen.old.book) }
    ensures longer { IsPrefix seen.old.log seen.new.log }
    ensures right { result.nib.right ≡ may_write }
    ensures newest { result.nib.key ≡ newest_right 0 seen.new.log }
    ensures no_items { items_since result.nib.key seen.new.log ≡ [] }
    ensures unused { last_right result.nib.key seen.new.log ≡ result.nib.key }
{
    let mut pen = seen.no_pen();
    let mut offer: NoTrade<T> = seen.plain::<NoGain, (), Nothing>(&());
    let _ = word.compare_exchange::<MakeRight, NoGain>(0, 0, seen, &mut offer, &mut pen);
    let _: StepWord<T> = Word::tracked(0, &mut pen);
    pen
}

/// Adds an item with the pen's right. The pen then has the right to add the next one.
pub fn add_item<T>(word: &StepWord<T>, seen: &mut Knowledge<T>, pen: &mut Pen, item: &T)
    requires word { IsStepWord word.now }
    requires book { (seen.old.book ≡ word.now.book) × (pen.old.book ≡ word.now.book) }
    requires right { pen.old.nib.right ≡ may_write }
    ensures book { (seen.new.book ≡ seen.old.book) × (pen.new.book ≡ pen.old.book) }
    ensures right { pen.new.nib.right ≡ may_write }
    ensures added { EachRollOf pen.old.nib.key seen.old.log
        (λ first log. GrowsBy first log seen.new.log (item.now ∷ []) pen.new.nib.key) }
{
    let mut longer = seen.again();
    let next = make_right(word, &mut longer);
    let mut offer: NoTrade<T> = longer.plain::<NoGain, T, AddItem>(item);
    let _ = word.compare_exchange::<AddItem, NoGain>(0, 0, &mut longer, &mut offer, pen);
    *seen = longer;
    *pen = next;
}

/// Sees that the roll with the pen's right did not grow since it was seen.
pub fn look<T>(word: &StepWord<T>, seen: &mut Knowledge<T>, pen: &mut Pen)
    requires word { IsStepWord word.now }
    requires book { (seen.old.book ≡ word.now.book) × (pen.old.book ≡ word.now.book) }
    requires right { pen.old.nib.right ≡ may_write }
    ensures book { (seen.new.book ≡ seen.old.book) × (pen.new.book ≡ pen.old.book) }
    ensures longer { IsPrefix seen.old.log seen.new.log }
    ensures same_right { pen.new.nib ≡ pen.old.nib }
    ensures no_more { EachRollOf pen.old.nib.key seen.old.log
        (λ first log. GrowsBy first log seen.new.log [] pen.old.nib.key) }
{
    let mut offer: NoTrade<T> = seen.plain::<NoGain, (), Nothing>(&());
    let _ = word.compare_exchange::<Look, NoGain>(0, 0, seen, &mut offer, pen);
}
