ghost use Rattle.std.specs.Prelude.{◌≡◌, ℕ, List, [], ◌∷◌, ◌++◌, length, OnOk};
ghost use Rattle.ad_eval.specs.declared.sides.Side.{Side};
ghost use Rattle.ad_eval.specs.Mean.{is_among};

use crate::sides::Side;
use ad_value::Memory;
use std::alloc::Global;
use std::marker::Model;

/// How many attributes may be in progress.
pub const MOST_IN_PROGRESS: usize = 32;

/// The attributes in progress, each as its side and its place there. Contracts see the list of
/// them, in the order in which they began.
#[derive(Drop)]
pub struct Progress {
    attributes: Vec<(Side, usize)>,
}

impl Model for Progress {
    ghost use Rattle.std.specs.Prelude.{ℕ, List};
    ghost use Rattle.ad_eval.specs.declared.sides.Side.{Side};

    ghost Value = { List (Side × ℕ) };

    ghost view = { λ p. p.attributes.items };
}

impl Progress {
    /// No attributes. Computes in O(1).
    pub fn new(alloc: Global) -> Progress
        ensures { result ≡ [] }
    {
        Progress {
            attributes: Vec::new(alloc),
        }
    }

    /// How many are in progress. Computes in O(1).
    pub fn len(&self) -> usize
        ensures { result ≡ length self.now }
    {
        self.attributes.len()
    }

    /// Whether an attribute is in progress. Computes in O(attributes in progress).
    pub fn contains(&self, side: Side, place: usize) -> bool
        ensures { result ≡ is_among side place self.now }
    {
        for (other, i) in &self.attributes {
            if *other == side && *i == place {
                return true;
            }
        }
        false
    }

    /// Begins an attribute. Computes in O(1).
    pub fn push(&mut self, side: Side, place: usize) -> Result<(), Memory>
        ensures { OnOk result (self.new ≡ self.old ++ (side, place) ∷ []) }
    {
        self.attributes.push((side, place))?;
        Ok(())
    }

    /// Ends the attribute that began last. Computes in O(1).
    pub fn pop(&mut self)
        ensures { (before : List (Side × ℕ)) (last : Side × ℕ)
            → self.old ≡ before ++ last ∷ []
            → self.new ≡ before }
    {
        self.attributes.pop();
    }
}
