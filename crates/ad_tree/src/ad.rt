ghost use Rattle.std.specs.Prelude.{◌≡◌, ◌↔◌, ◌≤◌, [], length, slice_get, IfOk, IsSome, IsTrue, OnOk, OnErr, IsErrOf};
ghost use Rattle.std.specs.Option.{option_map};

use crate::places::{all_places, own_place, table_place};
use crate::shared::SharedTable;
use crate::table::{Table, refuse};
use crate::tree::Expr;
use ad_value::{Copied, Memory, Seq};
use std::alloc::Global;
use std::fmt;
use std::marker::Model;
use thiserror::Error;

/// How many attributes an ad may have.
pub const MAX_ATTRIBUTES: usize = 256;

// A table is made with memory for at least so many attributes.
const LEAST_CAPACITY: usize = 8;

/// An ad: attributes in the order in which their names came. Names are equal without ASCII case,
/// and contracts see the list of names and expressions.
///
/// The copies of an ad share one table, and each has its own places in it. So a copy costs one
/// small allocation, whatever the ad's size, and the deep copy is put off to the first `set` of an
/// ad whose table a copy has too, or of which an attribute was removed. An attribute that is
/// removed keeps its memory until then.
///
/// A look-up by name is fast where names do not collide in the table. Names can be made to collide,
/// and then it takes O(attributes).
pub struct Ad {
    table: SharedTable,
    places: Vec<u8>,
}

impl Drop for Ad {
    fn drop(self) {
        let Ad {
            table: _table,
            places: _places,
        } = self;
    }
}

/// A list of ads.
pub type AdList = Seq<Ad>;

/// Why an attribute was not set.
#[derive(Clone, Copy, PartialEq, Eq, Error)]
pub enum SetError {
    /// The name is new, and the ad has as many attributes as it may.
    #[error("the ad has {max} attributes", max = MAX_ATTRIBUTES)]
    Full,
    #[error("out of memory")]
    Memory,
}

impl fmt::Debug for SetError {
    fn fmt<W: fmt::Write>(&self, f: &mut fmt::Formatter<W>) -> fmt::Result {
        fmt::Display::fmt(self, f)
    }
}

impl From<Memory> for SetError {
    ghost use Rattle.std.specs.Prelude.{◌≡◌};
    ghost use Rattle.ad_tree.specs.declared.ad.SetError.TheVariants as error;

    ghost from_gives = { λ _ e. e ≡ error.Memory };

    fn from(_: Memory) -> SetError {
        SetError::Memory
    }
}

impl Model for Ad {
    ghost use Rattle.std.specs.Prelude.{List, ℕ};
    ghost use Rattle.ad_tree.specs.Tree.{Tree};
    ghost use Rattle.ad_tree.specs.TreeCode.{attributes_code};

    ghost Value = { List (List ℕ × Tree) };

    ghost coded = { attributes_code };

    ghost use Rattle.ad_tree.specs.Places.{attributes_at, IsAdOver};

    ghost view = { λ a. attributes_at a.table a.places.items };

    ghost invariant = { λ a. IsAdOver a.table a.places.items };
}

impl Ad {
    ghost use Rattle.ad_tree.specs.Ad.{lookup, place_of, with_attribute, without, AreDistinct, IsFullFor};
    ghost use Rattle.ad_tree.specs.Tree.{tree};

    /// An ad without attributes, without memory. Computes in O(1).
    pub fn new(alloc: Global) -> Ad
        ensures { result ≡ [] }
    {
        Ad {
            table: SharedTable::new(),
            places: Vec::new(alloc),
        }
    }

    /// How many attributes there are. Computes in O(1).
    pub fn len(&self) -> usize
        ensures len { result ≡ length self.now }
        ensures within { result ≤ MAX_ATTRIBUTES }
        ensures distinct { AreDistinct self.now }
    {
        self.places.len()
    }

    /// What holds of every ad: no two names are the same. Computes in O(1), without memory.
    pub fn soundness(&self)
        ensures few { length self.now ≤ MAX_ATTRIBUTES }
        ensures distinct { AreDistinct self.now }
    {
        let _ = &self.places;
    }

    /// Whether there are no attributes. Computes in O(1).
    pub fn is_empty(&self) -> bool
        ensures { IsTrue result ↔ (self.now ≡ []) }
    {
        self.places.is_empty()
    }

    /// The expression under a name, without memory: by the table where the ad has all of it, and
    /// else after going over the ad's places once, at most 256 bytes. Computes in O(bytes of the
    /// name) where names do not collide.
    pub fn get(&self, name: &str) -> Option<&Expr>
        ensures { option_map (λ e. tree e.now) result ≡ lookup name.now self.now }
    {
        let place = self.place(name)?;
        let (_, expr) = self.attribute(place)?;
        Some(expr)
    }

    /// The place of a name, without memory: by the table where the ad has all of it, and else after
    /// going over the ad's places once, at most 256 bytes. Computes in O(bytes of the name) where
    /// names do not collide.
    pub fn place(&self, name: &str) -> Option<usize>
        ensures { result ≡ place_of name.now self.now }
    {
        let place = self.table.place(name)?;
        if self.table.len() == self.places.len() {
            return Some(place);
        }
        own_place(self.places.as_slice(), place)
    }

    /// The name and the expression at a place, without memory. Computes in O(1).
    pub fn attribute(&self, place: usize) -> Option<(&str, &Expr)>
        ensures { option_map (λ a. (a.0.now, tree a.1.now)) result ≡ slice_get self.now place }
    {
        let place = table_place(self.places.as_slice(), place)?;
        self.table.attribute(place)
    }

    /// Whether `set` would refuse the name as one too many, without memory. Computes as `get`.
    pub fn is_full_for(&self, name: &str) -> bool
        ensures { IsTrue result ↔ IsFullFor name.now self.now }
    {
        self.places.len() == MAX_ATTRIBUTES && self.get(name).is_none()
    }

    /// Puts an expression under a name. A name that is there keeps its place and spelling, and a
    /// new one comes last. Computes in O(bytes of the name) on average, where names do not collide;
    /// the first time after a copy, or after a removal, in O(size), since the ad then gets a table
    /// of its own. An error leaves the ad as it was, and the expression is dropped.
    pub fn set(&mut self, alloc: Global, name: &str, expr: Expr) -> Result<(), SetError>
        ensures ok { OnOk result (self.new ≡ with_attribute name.now (tree expr) self.old) }
        ensures full { IsErrOf result SetError.Full ↔ IsFullFor name.now self.old }
        ensures err { OnErr result (self.new ≡ self.old) }
    {
        match self.make_ready(alloc, name) {
            Ok(()) => Ok(self.set_alone(alloc, name, expr)?),
            Err(error) => Err(error),
        }
    }

    /// Takes a name out, if it is there, without memory; the rest keeps its order. Computes in
    /// O(bytes of the name) where names do not collide, and in O(attributes), a byte each.
    pub fn remove(&mut self, name: &str) -> bool
        ensures found { IsTrue result ↔ IsSome (lookup name.now self.old) }
        ensures rest { self.new ≡ without name.now self.old }
    {
        match self.place(name) {
            Some(place) => {
                self.places.remove(place);
                true
            }
            None => false,
        }
    }
}

// An ad stands alone where no copy has its table and it has all of its table.
impl Ad {
    ghost use Rattle.ad_tree.specs.Ad.{with_attribute, IsFullFor};
    ghost use Rattle.ad_tree.specs.Tree.{tree};

    // Whether it stands alone.
    fn is_alone(&mut self) -> bool
        ensures { self.new ≡ self.old }
    {
        self.table.is_unshared() && self.table.len() == self.places.len()
    }

    // Makes it stand alone, where the name can be set.
    fn make_ready(&mut self, alloc: Global, name: &str) -> Result<(), SetError>
        ensures full { IsErrOf result SetError.Full ↔ IsFullFor name.now self.old }
        ensures same { self.new ≡ self.old }
    {
        if self.is_full_for(name) {
            return Err(SetError::Full);
        }
        self.stand_alone(alloc)?;
        Ok(())
    }

    // Makes it stand alone. An error leaves it as it was.
    fn stand_alone(&mut self, alloc: Global) -> Result<(), Memory>
        ensures { self.new ≡ self.old }
    {
        if !self.is_alone() {
            *self = self.alone_copy(alloc)?;
        }
        Ok(())
    }

    // An equal ad that stands alone, with memory for one attribute more.
    fn alone_copy(&self, alloc: Global) -> Result<Ad, Memory>
        ensures { IfOk result (λ a. a ≡ self.now) }
    {
        let mut table = Table::with_capacity(alloc, (self.len() + 1).max(LEAST_CAPACITY))?;
        for place in 0..self.len() {
            if let Some((name, expr)) = self.attribute(place) {
                table.put(alloc, name, expr.copy(alloc)?)?;
            }
        }
        Ad::of_table(alloc, table)
    }

    // An ad that has all of a table.
    fn of_table(alloc: Global, table: Table) -> Result<Ad, Memory>
        ensures { IfOk result (λ a. a ≡ table) }
    {
        let places = all_places(alloc, table.len())?;
        let shared = SharedTable::of(alloc, table)?;
        Ok(Ad {
            table: shared,
            places,
        })
    }

    // As `set`, in the ad's own table, in which there is room. Where the ad does not stand alone,
    // the answer is that memory ran out.
    fn set_alone(&mut self, alloc: Global, name: &str, expr: Expr) -> Result<(), Memory>
        requires room { ¬ (IsFullFor name.now self.old) }
        ensures ok { OnOk result (self.new ≡ with_attribute name.now (tree expr) self.old) }
        ensures err { OnErr result (self.new ≡ self.old) }
    {
        let len = self.places.len();
        if self.table.len() != len {
            return refuse(expr);
        }
        self.places.reserve(1)?;
        self.table.put(alloc, name, expr)?;
        if self.table.len() > len {
            self.places.push(len as u8).unwrap();
        }
        Ok(())
    }
}

impl Ad {
    ghost use Rattle.std.specs.Prelude.{slice_get};

    /// Whether both have the same names, as they are spelled, and the same expressions, in the same
    /// order, without memory. Computes in O(size of the smaller).
    pub fn same(&self, other: &Ad) -> bool
        ensures { IsTrue result ↔ (self.now ≡ other.now) }
    {
        if self.len() != other.len() {
            return false;
        }
        for place in 0..self.len() {
            if !self.same_at(other, place) {
                return false;
            }
        }
        true
    }

    // Whether both have the same at a place, or both nothing.
    fn same_at(&self, other: &Ad, place: usize) -> bool
        ensures { IsTrue result ↔ (slice_get self.now place ≡ slice_get other.now place) }
    {
        match (self.attribute(place), other.attribute(place)) {
            (Some((name, expr)), Some((other_name, other_expr))) => {
                name == other_name && expr.same(other_expr)
            }
            (None, None) => true,
            _ => false,
        }
    }
}

impl Copied for Ad {
    // One allocation: the table is shared.
    fn copy(&self, alloc: Global) -> Result<Ad, Memory> {
        Ok(Ad {
            table: self.table.copy(alloc)?,
            places: self.places.clone()?,
        })
    }
}
