//! The rule of a book of rolls, and the three steps that it allows.
use crate::growth::Growth;
use logbook::{Gain, Offer, Plain, Play, Rule, Seen, Word};

/// What a thread knows of a book's log. It takes no bytes.
pub type Knowledge<T> = Seen<Growth<T>, u64, RollRule>;

/// The word at which all steps of a book are taken. Its value never changes.
pub type StepWord<T> = Word<Growth<T>, u64, RollRule>;

/// An update that trades nothing.
pub type NoTrade<T> = Offer<Growth<T>, u64, RollRule, NoGain>;

/// What holds of a book between any two steps.
pub struct RollRule;

impl<T> Rule<Growth<T>, u64> for RollRule {
    ghost use Rattle.std.specs.Prelude.{[]};
    ghost use base.Fml.{ftrue};
    ghost use Rattle.receipt_roll.specs.Steps.{IsBookOfRolls};

    ghost holds = { λ cells log. IsBookOfRolls cells log };

    ghost first = { [] };

    ghost hinted = { λ n log. Unit {0} };

    ghost shows = { λ log. [] };

    ghost keeps = { λ names log. ftrue };

    ghost moves = { λ ask before after answer. Unit {0} };
}

/// Who takes a step gains nothing but what the step tells.
pub struct NoGain;

impl<T> Gain<Growth<T>, u64> for NoGain {
    ghost use base.Fml.{ftrue};

    ghost after = { λ names about answer. ftrue };
}

/// The step that makes a right.
pub struct MakeRight;

impl<T> Play<Growth<T>, u64> for MakeRight {
    ghost use Rattle.receipt_roll.specs.Steps.{MakesRight};

    ghost then = { MakesRight };
}

/// The step that adds an item.
pub struct AddItem;

impl<T> Play<Growth<T>, u64> for AddItem {
    ghost use Rattle.receipt_roll.specs.Steps.{AddsItem};

    ghost then = { AddsItem };
}

impl<T> Plain<T, Growth<T>, u64> for AddItem {
    ghost use Rattle.std.specs.Prelude.{None};
    ghost use Rattle.receipt_roll.specs.declared.growth.Growth.TheVariants.{NewItem};

    ghost ask = { λ item. NewItem item 0 0 };

    ghost state = { λ item. None };
}

/// The step that changes nothing, and tells who has a roll's last right that the roll did not grow.
pub struct Look;

impl<T> Play<Growth<T>, u64> for Look {
    ghost use Rattle.receipt_roll.specs.Steps.{SeesNoMore};

    ghost then = { SeesNoMore };
}

/// Asks for nothing.
pub struct Nothing;

impl<T> Plain<(), Growth<T>, u64> for Nothing {
    ghost use Rattle.std.specs.Prelude.{None};
    ghost use Rattle.receipt_roll.specs.declared.growth.Growth.TheVariants.{NewRight};

    ghost ask = { λ nothing. NewRight 0 };

    ghost state = { λ nothing. None };
}
