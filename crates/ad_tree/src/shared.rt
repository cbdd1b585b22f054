ghost use Rattle.std.specs.Prelude.{◌≡◌, [], length, slice_get, IfOk, OnOk, OnErr};
ghost use Rattle.std.specs.Option.{option_map};
ghost use Rattle.std.specs.Arc.{arc_value};
ghost use Rattle.ad_tree.specs.Ad.{with_attribute, IsFullFor};
ghost use Rattle.ad_tree.specs.Tree.{tree};

use crate::table::{Table, refuse};
use crate::tree::Expr;
use ad_value::{Copied, Memory};
use std::alloc::Global;
use std::marker::Model;
use std::sync::Arc;

/// A table that copies share. Contracts see the list of names and expressions. It takes no memory
/// before its first attribute.
#[derive(Drop)]
pub struct SharedTable {
    table: Option<Arc<Table, Global>>,
}

impl Model for SharedTable {
    ghost use Rattle.std.specs.Prelude.{List, ℕ, [], unwrap_or};
    ghost use Rattle.std.specs.Option.{option_map};
    ghost use Rattle.std.specs.Arc.{arc_value};
    ghost use Rattle.ad_tree.specs.Tree.{Tree};
    ghost use Rattle.ad_tree.specs.TreeCode.{attributes_code};

    ghost Value = { List (List ℕ × Tree) };

    ghost coded = { attributes_code };

    ghost view = { λ s. unwrap_or (option_map arc_value s.table) [] };
}

impl SharedTable {
    ghost use Rattle.ad_tree.specs.Ad.{place_of};

    /// A table without attributes, without memory. Computes in O(1).
    pub fn new() -> SharedTable
        ensures { result ≡ [] }
    {
        SharedTable { table: None }
    }

    /// A table that no copy has yet. Computes in O(1).
    pub fn of(alloc: Global, table: Table) -> Result<SharedTable, Memory>
        ensures { IfOk result (λ s. s ≡ table) }
    {
        Ok(SharedTable {
            table: Some(Arc::new(alloc, table)?),
        })
    }

    /// How many attributes there are. Computes in O(1).
    pub fn len(&self) -> usize
        ensures { result ≡ length self.now }
    {
        match &self.table {
            Some(table) => table.len(),
            None => 0,
        }
    }

    /// The place of a name, without memory. Computes in O(bytes of the name) where names do not
    /// collide.
    pub fn place(&self, name: &str) -> Option<usize>
        ensures { result ≡ place_of name.now self.now }
    {
        match &self.table {
            Some(table) => table.place(name),
            None => None,
        }
    }

    /// The name and the expression at a place, without memory. Computes in O(1).
    pub fn attribute(&self, place: usize) -> Option<(&str, &Expr)>
        ensures { option_map (λ a. (a.0.now, tree a.1.now)) result ≡ slice_get self.now place }
    {
        match &self.table {
            Some(table) => table.attribute(place),
            None => None,
        }
    }

    /// Whether there is memory for a table, and no copy has it too. Computes in O(1).
    pub fn is_unshared(&mut self) -> bool
        ensures { self.new ≡ self.old }
    {
        match &mut self.table {
            Some(table) => is_unshared(table),
            None => false,
        }
    }

    /// As `Table::put`. Where a copy has the table too, or there is none, the answer is that memory
    /// ran out.
    pub fn put(&mut self, alloc: Global, name: &str, expr: Expr) -> Result<(), Memory>
        requires room { ¬ (IsFullFor name.now self.old) }
        ensures ok { OnOk result (self.new ≡ with_attribute name.now (tree expr) self.old) }
        ensures err { OnErr result (self.new ≡ self.old) }
    {
        match &mut self.table {
            Some(table) => put_unshared(table, alloc, name, expr),
            None => refuse(expr),
        }
    }
}

fn is_unshared(table: &mut Arc<Table, Global>) -> bool
    ensures { arc_value table.new ≡ arc_value table.old }
{
    match Arc::get_mut(table) {
        Some(_) => true,
        None => false,
    }
}

fn put_unshared(
    table: &mut Arc<Table, Global>,
    alloc: Global,
    name: &str,
    expr: Expr,
) -> Result<(), Memory>
    requires room { ¬ (IsFullFor name.now (arc_value table.old)) }
    ensures ok { OnOk result (
        arc_value table.new ≡ with_attribute name.now (tree expr) (arc_value table.old)) }
    ensures err { OnErr result (arc_value table.new ≡ arc_value table.old) }
{
    match Arc::get_mut(table) {
        Some(table) => table.put(alloc, name, expr),
        None => refuse(expr),
    }
}

impl Copied for SharedTable {
    fn copy(&self, _: Global) -> Result<SharedTable, Memory> {
        match &self.table {
            Some(table) => Ok(SharedTable {
                table: Some(Arc::try_clone(table)?),
            }),
            None => Ok(SharedTable::new()),
        }
    }
}
