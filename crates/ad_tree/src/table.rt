ghost use Rattle.std.specs.Prelude.{◌≡◌, ◌≤◌, [], length, slice_get, IfOk, IsErr, OnOk, OnErr};
ghost use Rattle.std.specs.Option.{option_map};
ghost use Rattle.ad_tree.specs.Ad.{named_trees, with_attribute};
ghost use Rattle.ad_tree.specs.Tree.{tree};

use crate::ad::MAX_ATTRIBUTES;
use crate::name::{Name, NameKey};
use crate::tree::Expr;
use ad_value::Memory;
use indexmap::IndexMap;
use std::alloc::Global;
use std::marker::Model;

/// Attributes in the order in which their names came, found by their names. Contracts see the list
/// of names and expressions.
pub struct Table {
    attributes: IndexMap<Name, Expr>,
}

impl Drop for Table {
    fn drop(self) {
        let Table {
            attributes: _attributes,
        } = self;
    }
}

impl Model for Table {
    ghost use Rattle.std.specs.Prelude.{List, ℕ};
    ghost use Rattle.ad_tree.specs.Tree.{Tree};
    ghost use Rattle.ad_tree.specs.TreeCode.{attributes_code};
    ghost use Rattle.ad_tree.specs.Ad.{named_trees, IsAd};

    ghost Value = { List (List ℕ × Tree) };

    ghost coded = { attributes_code };

    ghost view = { λ t. named_trees t.attributes.entries };

    ghost invariant = { λ t. IsAd (named_trees t.attributes.entries) };
}

impl Table {
    ghost use Rattle.ad_tree.specs.Ad.{place_of, with_attribute, AreDistinct, IsFullFor};
    ghost use Rattle.ad_tree.specs.Tree.{tree};

    /// A table without attributes, with memory for so many. Computes in O(capacity).
    pub fn with_capacity(alloc: Global, capacity: usize) -> Result<Table, Memory>
        ensures { IfOk result (λ t. t ≡ []) }
    {
        Ok(Table {
            attributes: IndexMap::with_capacity(alloc, capacity)?,
        })
    }

    /// How many attributes there are. Computes in O(1).
    pub fn len(&self) -> usize
        ensures len { result ≡ length self.now }
        ensures within { result ≤ MAX_ATTRIBUTES }
        ensures distinct { AreDistinct self.now }
    {
        self.attributes.len()
    }

    /// The place of a name, without memory. Computes in O(bytes of the name) where names do not
    /// collide.
    pub fn place(&self, name: &str) -> Option<usize>
        ensures { result ≡ place_of name.now self.now }
    {
        self.attributes.get_index_of(NameKey(name))
    }

    /// The name and the expression at a place, without memory. Computes in O(1).
    pub fn attribute(&self, place: usize) -> Option<(&str, &Expr)>
        ensures { option_map (λ a. (a.0.now, tree a.1.now)) result ≡ slice_get self.now place }
    {
        let (name, expr) = self.attributes.get_index(place)?;
        Some((name.as_str(), expr))
    }

    /// Puts an expression under a name. A name that is there keeps its place and spelling, and a
    /// new one comes last. Computes in O(bytes of the name) on average, where names do not collide.
    /// An error leaves the table as it was, and the expression is dropped.
    pub fn put(&mut self, alloc: Global, name: &str, expr: Expr) -> Result<(), Memory>
        requires room { ¬ (IsFullFor name.now self.old) }
        ensures ok { OnOk result (self.new ≡ with_attribute name.now (tree expr) self.old) }
        ensures err { OnErr result (self.new ≡ self.old) }
    {
        put_entry(&mut self.attributes, alloc, name, expr)?;
        Ok(())
    }
}

fn put_entry(
    attributes: &mut IndexMap<Name, Expr>,
    alloc: Global,
    name: &str,
    expr: Expr,
) -> Result<(), Memory>
    ensures ok { OnOk result (
        named_trees attributes.new.entries
        ≡ with_attribute name.now (tree expr) (named_trees attributes.old.entries)) }
    ensures err { OnErr result (attributes.new.entries ≡ attributes.old.entries) }
{
    if let Some(place) = attributes.get_index_of(NameKey(name)) {
        attributes[place] = expr;
        return Ok(());
    }
    let Ok(name) = Name::new(alloc, name) else {
        return refuse(expr);
    };
    attributes.insert(name, expr)?;
    Ok(())
}

// Drops an expression that cannot be put, as if memory had run out.
pub(crate) fn refuse(_expr: Expr) -> Result<(), Memory>
    ensures { IsErr result }
{
    Err(Memory)
}
