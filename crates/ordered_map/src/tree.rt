ghost use Rattle.std.specs.Prelude.{◌≡◌, [], MatchOption};
ghost use Rattle.ordered_map.specs.Trees.{entries_in};

use ad_value::{Copied, Memory};
use std::alloc::Global;
use std::marker::Model;
use std::mem;

/// A search tree, which contracts see as its entries from left to right. It is balanced as AVL
/// trees are, so its depth is O(log entries); no contract says so.
#[cycle(tree)]
#[derive(Drop)]
pub(crate) struct Tree<K, V> {
    pub(crate) top: Top<K, V>,
}

#[cycle(tree)]
#[derive(Drop)]
pub(crate) enum Top<K, V> {
    Empty,
    Node(Box<Fork<K, V>>),
}

/// An entry between two trees.
#[cycle(tree)]
#[derive(Drop)]
pub(crate) struct Fork<K, V> {
    pub(crate) height: u8,
    pub(crate) left: Tree<K, V>,
    pub(crate) key: K,
    pub(crate) value: V,
    pub(crate) right: Tree<K, V>,
}

impl<K, V> Model for Tree<K, V> {
    ghost use Rattle.std.specs.Prelude.{List, length};

    ghost Value = { List (K × V) };

    ghost use Rattle.ordered_map.specs.Trees.{entries_of};

    ghost view = { λ t. entries_of t.top };

    ghost size = { length };

    ghost use Rattle.std.proofs.Common.{arith, length-append};

    ghost size_decreases = { λ a h. Prim.grind (arith, length-append) };
}

impl<K: Drop, V: Drop> Tree<K, V> {
    pub(crate) fn new() -> Self
        ensures { result ≡ [] }
    {
        Tree { top: Top::Empty }
    }

    // The tree of one node.
    pub(crate) fn of(node: Box<Fork<K, V>>) -> Self
        ensures { result ≡ entries_in node.value }
    {
        Tree {
            top: Top::Node(node),
        }
    }

    fn height(&self) -> u8 {
        match &self.top {
            Top::Empty => 0,
            Top::Node(node) => node.height,
        }
    }

    // Takes the node out, which leaves the empty tree.
    pub(crate) fn take(&mut self) -> Option<Box<Fork<K, V>>>
        ensures node { MatchOption result (self.old ≡ []) (λ n. self.old ≡ entries_in n.value) }
        ensures rest { self.new ≡ [] }
    {
        match mem::replace(&mut self.top, Top::Empty) {
            Top::Empty => None,
            Top::Node(node) => Some(node),
        }
    }

    // The node, where there is one.
    pub(crate) fn node(&self) -> Option<&Fork<K, V>>
        ensures { MatchOption result (self.now ≡ []) (λ n. self.now ≡ entries_in n.now) }
    {
        match &self.top {
            Top::Empty => None,
            Top::Node(node) => Some(node),
        }
    }

    // Whether the left side is higher than the right side, where there is a node.
    fn leans_left(&self) -> bool {
        match &self.top {
            Top::Empty => false,
            Top::Node(node) => node.left.height() > node.right.height(),
        }
    }

    fn leans_right(&self) -> bool {
        match &self.top {
            Top::Empty => false,
            Top::Node(node) => node.right.height() > node.left.height(),
        }
    }

    // Turns the top node to the right, where it has a left side.
    fn turn_right(&mut self)
        ensures { self.new ≡ self.old }
    {
        if let Some(mut node) = self.take() {
            turn_right(&mut node);
            *self = Tree::of(node);
        }
    }

    fn turn_left(&mut self)
        ensures { self.new ≡ self.old }
    {
        if let Some(mut node) = self.take() {
            turn_left(&mut node);
            *self = Tree::of(node);
        }
    }
}

// The height that the sides give.
fn measure<K: Drop, V: Drop>(node: &mut Fork<K, V>)
    ensures { entries_in node.new ≡ entries_in node.old }
{
    node.height = node
        .left
        .height()
        .max(node.right.height())
        .saturating_add(1);
}

fn turn_right<K: Drop, V: Drop>(node: &mut Box<Fork<K, V>>)
    ensures { entries_in node.new.value ≡ entries_in node.old.value }
{
    if let Some(mut left) = node.left.take() {
        mem::swap(&mut node.left, &mut left.right);
        measure(node);
        mem::swap(node, &mut left);
        node.right = Tree::of(left);
        measure(node);
    }
}

fn turn_left<K: Drop, V: Drop>(node: &mut Box<Fork<K, V>>)
    ensures { entries_in node.new.value ≡ entries_in node.old.value }
{
    if let Some(mut right) = node.right.take() {
        mem::swap(&mut node.right, &mut right.left);
        measure(node);
        mem::swap(node, &mut right);
        node.left = Tree::of(right);
        measure(node);
    }
}

// Balances a node whose sides are balanced, and differ in height by two at most.
pub(crate) fn balance<K: Drop, V: Drop>(node: &mut Box<Fork<K, V>>)
    ensures { entries_in node.new.value ≡ entries_in node.old.value }
{
    let (left, right) = (node.left.height(), node.right.height());
    if left > right.saturating_add(1) {
        if node.left.leans_right() {
            node.left.turn_left();
        }
        turn_right(node);
    } else if right > left.saturating_add(1) {
        if node.right.leans_left() {
            node.right.turn_right();
        }
        turn_left(node);
    } else {
        measure(node);
    }
}

impl<K: Copy, V: Copied> Copied for Tree<K, V> {
    fn copy(&self, alloc: Global) -> Result<Tree<K, V>, Memory> {
        match &self.top {
            Top::Empty => Ok(Tree::new()),
            Top::Node(node) => {
                let fork = Fork {
                    height: node.height,
                    left: node.left.copy(alloc)?,
                    key: node.key,
                    value: node.value.copy(alloc)?,
                    right: node.right.copy(alloc)?,
                };
                Ok(Tree::of(Box::new(alloc, fork)?))
            }
        }
    }
}
