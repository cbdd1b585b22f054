ghost use Rattle.std.specs.Prelude.{◌≡◌, ◌++◌, [], ◌∷◌, find, Some, MatchOption};
ghost use Rattle.std.specs.Option.{option_copied, option_map};
ghost use Rattle.std.specs.BTreeMap.{insert_entry, is_at};
ghost use Rattle.std.specs.List.Sorted.{IsStrictlySortedBy};
ghost use Rattle.std.specs.Map.{lookup, keys_of, remove_entry};
ghost use Rattle.ordered_map.specs.Trees.{entries_in, is_past, IsLone};

use crate::tree::{Fork, Tree, balance};
use std::cmp::Ordering;
use std::mem;
use std::ops::Bound;

impl<K: Ord + Drop, V: Drop> Tree<K, V> {
    // The value under a key.
    pub(crate) fn get(&self, key: &K) -> Option<&V>
        requires { IsStrictlySortedBy K.cmp (keys_of self.now) }
        ensures { option_copied result ≡ lookup (is_at (K.cmp key.now)) self.now }
    {
        let node = self.node()?;
        match key.cmp(&node.key) {
            Ordering::Less => node.left.get(key),
            Ordering::Equal => Some(&node.value),
            Ordering::Greater => node.right.get(key),
        }
    }

    // The first entry past a bound.
    pub(crate) fn first_past(&self, start: &Bound<&K>) -> Option<(&K, &V)>
        requires { IsStrictlySortedBy K.cmp (keys_of self.now) }
        ensures { option_map (λ e. (e.0.now, e.1.now)) result
            ≡ find (λ e. is_past K.cmp start.now e.0) self.now }
    {
        let node = self.node()?;
        if !is_past(start, &node.key) {
            return node.right.first_past(start);
        }
        let here = Some((&node.key, &node.value));
        node.left.first_past(start).or(here)
    }
}

// Whether a key is past a bound.
fn is_past<K: Ord>(start: &Bound<&K>, key: &K) -> bool
    ensures { result ≡ is_past K.cmp start.now key.now }
{
    match start {
        Bound::Unbounded => true,
        Bound::Included(least) => (*least).cmp(key) != Ordering::Greater,
        Bound::Excluded(below) => (*below).cmp(key) == Ordering::Less,
    }
}

impl<K: Ord + Drop, V: Drop> Tree<K, V> {
    // The entry of a lone node goes to its place; where its key is there, the value takes the
    // other's place.
    pub(crate) fn put(&mut self, entry: Box<Fork<K, V>>)
        requires sorted { IsStrictlySortedBy K.cmp (keys_of self.old) }
        requires lone { IsLone entry.value }
        ensures { self.new ≡ insert_entry K.cmp self.old entry.value.key entry.value.value }
    {
        let Some(mut node) = self.take() else {
            *self = Tree::of(entry);
            return;
        };
        match entry.key.cmp(&node.key) {
            Ordering::Less => {
                node.left.put(entry);
                self.settle(node);
            }
            Ordering::Equal => {
                set_value(&mut node, entry);
                self.settle(node);
            }
            Ordering::Greater => {
                node.right.put(entry);
                self.settle(node);
            }
        }
    }

    // The tree becomes that of a node, balanced.
    fn settle(&mut self, mut node: Box<Fork<K, V>>)
        ensures { self.new ≡ entries_in node.value }
    {
        balance(&mut node);
        *self = Tree::of(node);
    }

    // Takes the entry of a key out.
    pub(crate) fn remove(&mut self, key: &K) -> Option<V>
        requires { IsStrictlySortedBy K.cmp (keys_of self.old) }
        ensures value { result ≡ lookup (is_at (K.cmp key.now)) self.old }
        ensures rest { self.new ≡ remove_entry (is_at (K.cmp key.now)) self.old }
    {
        let mut node = self.take()?;
        match key.cmp(&node.key) {
            Ordering::Less => {
                let value = node.left.remove(key);
                self.settle(node);
                value
            }
            Ordering::Equal => {
                let (rest, value) = without_entry(node);
                *self = rest;
                Some(value)
            }
            Ordering::Greater => {
                let value = node.right.remove(key);
                self.settle(node);
                value
            }
        }
    }

    // The entries of one tree, then those of another.
    fn join(left: Tree<K, V>, mut right: Tree<K, V>) -> Tree<K, V>
        ensures { result ≡ left ++ right }
    {
        match right.take_first() {
            None => left,
            Some(mut node) => {
                node.left = left;
                node.right = right;
                balance(&mut node);
                Tree::of(node)
            }
        }
    }

    // Takes the first node off.
    fn take_first(&mut self) -> Option<Box<Fork<K, V>>>
        ensures { MatchOption result (self.old ≡ [])
            (λ n. self.old ≡ (n.value.key, n.value.value) ∷ self.new) }
    {
        let mut node = self.take()?;
        match node.left.take_first() {
            None => {
                *self = mem::replace(&mut node.right, Tree::new());
                Some(node)
            }
            Some(first) => {
                self.settle(node);
                Some(first)
            }
        }
    }
}

// The value of a node becomes that of another.
fn set_value<K: Drop, V: Drop>(node: &mut Box<Fork<K, V>>, other: Box<Fork<K, V>>)
    ensures left { node.new.value.left ≡ node.old.value.left }
    ensures key { node.new.value.key ≡ node.old.value.key }
    ensures value { node.new.value.value ≡ other.value.value }
    ensures right { node.new.value.right ≡ node.old.value.right }
{
    let Fork { value, .. } = Box::into_inner(other);
    node.value = value;
}

// The sides of a node, joined, and its value.
fn without_entry<K: Ord + Drop, V: Drop>(node: Box<Fork<K, V>>) -> (Tree<K, V>, V)
    ensures rest { result.0 ≡ node.value.left ++ node.value.right }
    ensures value { result.1 ≡ node.value.value }
{
    let Fork {
        left,
        value,
        right,
        ..
    } = Box::into_inner(node);
    (Tree::join(left, right), value)
}
