ghost use Rattle.std.specs.Prelude.{◌≡◌, ◌∷◌, [], find, Ok, IfOk};
ghost use Rattle.std.specs.Option.{option_copied, option_map};
ghost use Rattle.std.specs.BTreeMap.{insert_entry, is_at};
ghost use Rattle.std.specs.List.Sorted.{IsStrictlySortedBy};
ghost use Rattle.std.specs.Map.{lookup, keys_of, remove_entry};
ghost use Rattle.ordered_map.specs.Trees.{is_past};

use crate::tree::{Fork, Tree};
use ad_value::{Copied, Memory};
use std::alloc::Global;
use std::marker::Model;
use std::ops::Bound;

/// An entry that is to come into a map, with its memory. Contracts see it as the pair.
#[derive(Drop)]
pub struct NewEntry<K, V> {
    node: Box<Fork<K, V>>,
}

impl<K, V> Model for NewEntry<K, V> {
    ghost use Rattle.std.specs.Prelude.{◌≡◌};

    ghost Value = { K × V };

    ghost view = { λ e. (e.node.value.key, e.node.value.value) };

    ghost use Rattle.ordered_map.specs.Trees.{IsLone};

    ghost invariant = { λ e. IsLone e.node.value };
}

impl<K: Drop, V: Drop> NewEntry<K, V> {
    /// The entry of a key and a value. Computes in O(1). An error drops both.
    pub fn new(alloc: Global, key: K, value: V) -> Result<Self, Memory>
        ensures { IfOk result (λ e. e ≡ (key, value)) }
    {
        let fork = Fork {
            height: 1,
            left: Tree::new(),
            key,
            value,
            right: Tree::new(),
        };
        Ok(NewEntry {
            node: Box::new(alloc, fork)?,
        })
    }

    /// The key. Computes in O(1).
    pub fn key(&self) -> &K
        ensures { result.now ≡ self.now.0 }
    {
        &self.node.key
    }

    /// The value. Computes in O(1).
    pub fn value(&self) -> &V
        ensures { result.now ≡ self.now.1 }
    {
        &self.node.value
    }
}

/// A map, which contracts see as its entries in the order of the keys.
#[derive(Drop)]
pub struct OrderedMap<K: Ord, V> {
    tree: Tree<K, V>,
}

impl<K: Ord, V> Model for OrderedMap<K, V> {
    ghost use Rattle.std.specs.Prelude.{List};
    ghost use Rattle.std.specs.List.Sorted.{IsStrictlySortedBy};
    ghost use Rattle.std.specs.Map.{keys_of};

    ghost Value = { List (K × V) };

    ghost view = { λ m. m.tree };

    ghost invariant = { λ m. IsStrictlySortedBy K.cmp (keys_of m.tree) };
}

impl<K: Ord + Drop, V: Drop> OrderedMap<K, V> {
    /// The map without entries, without memory. Computes in O(1).
    pub fn new() -> Self
        ensures { result ≡ [] }
    {
        OrderedMap { tree: Tree::new() }
    }

    /// The value under a key, without memory. Computes in O(log entries).
    pub fn get(&self, key: &K) -> Option<&V>
        ensures value { option_copied result ≡ lookup (is_at (K.cmp key.now)) self.now }
        ensures sorted { IsStrictlySortedBy K.cmp (keys_of self.now) }
    {
        self.tree.get(key)
    }

    /// The first entry whose key is past a bound, without memory. Computes in O(log entries).
    pub fn first_past(&self, start: Bound<&K>) -> Option<(&K, &V)>
        ensures first { option_map (λ e. (e.0.now, e.1.now)) result
            ≡ find (λ e. is_past K.cmp start.entry e.0) self.now }
        ensures sorted { IsStrictlySortedBy K.cmp (keys_of self.now) }
    {
        self.tree.first_past(&start)
    }
}

impl<K: Ord + Drop, V: Drop> OrderedMap<K, V> {
    /// Puts an entry to its place, without memory; where its key is there, the value takes the
    /// other's place. Computes in O(log entries).
    pub fn put(&mut self, entry: NewEntry<K, V>)
        ensures entries { self.new ≡ insert_entry K.cmp self.old entry.0 entry.1 }
        ensures sorted { IsStrictlySortedBy K.cmp (keys_of self.old) }
    {
        let NewEntry { node } = entry;
        self.tree.put(node);
    }

    /// Takes the entry of a key out, if it is there, without memory. Computes in O(log entries).
    pub fn remove(&mut self, key: &K) -> Option<V>
        ensures value { result ≡ lookup (is_at (K.cmp key.now)) self.old }
        ensures entries { self.new ≡ remove_entry (is_at (K.cmp key.now)) self.old }
        ensures sorted { IsStrictlySortedBy K.cmp (keys_of self.old) }
    {
        self.tree.remove(key)
    }
}

impl<K: Ord + Copy, V: Copied> Copied for OrderedMap<K, V> {
    fn copy(&self, alloc: Global) -> Result<OrderedMap<K, V>, Memory> {
        Ok(OrderedMap {
            tree: self.tree.copy(alloc)?,
        })
    }
}
