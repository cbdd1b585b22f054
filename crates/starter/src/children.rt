// The children that run, in order, and a table of the places of their runs.
ghost use Rattle.std.specs.Prelude.{◌≡◌, ◌<◌, ◌≤◌, ◌+◌, ◌++◌, ◌∷◌, [], false, length, position, set, slice_get, swap_remove, IfSome, IsSomeAnd, OnOk, Some};
ghost use Rattle.pool_view.specs.Numbers.{same_run};
ghost use Rattle.starter.specs.ChildTables.{as_doomed, has_child, key_of};

use claim_id::{RunNo, SlotId};
use indexmap::IndexMap;
use std::alloc::{AllocError, Global};
use std::marker::Model;

/// A child that was not seen to end yet.
#[derive(Clone, Copy)]
pub struct Child {
    pub run: RunNo,
    /// Its number with the spawner.
    pub number: u64,
    /// It is to be killed.
    pub doomed: bool,
}

// A run's number, by which its child is looked up.
#[derive(Clone, Copy, PartialEq, Eq, Hash)]
pub(crate) struct RunKey {
    slot: SlotId,
    boot: u64,
    seq: u64,
    number: u64,
}

fn key_of(run: RunNo) -> RunKey
    ensures { result ≡ key_of run }
{
    RunKey {
        slot: run.claim.slot,
        boot: run.claim.boot,
        seq: run.claim.seq,
        number: run.number,
    }
}

// Contracts see it as a `ChildTable`: the children, and how many more take no memory.
#[derive(Drop)]
pub(crate) struct Children {
    by_run: IndexMap<RunKey, Child>,
}

impl Model for Children {
    ghost use Rattle.indexmap.specs.IndexMap.{spare, values};
    ghost use Rattle.starter.specs.ChildTables.{ChildTable, AreKeyed};

    ghost Value = { ChildTable };

    ghost view = { λ c. record { list = values c.by_run; spare = spare c.by_run } };

    ghost invariant = { λ c. AreKeyed c.by_run.entries };
}

impl Children {
    pub fn new(alloc: Global) -> Children
        ensures { result.list ≡ [] }
    {
        Children {
            by_run: IndexMap::new(alloc),
        }
    }

    pub fn as_slice(&self) -> &[Child]
        ensures { result.now ≡ self.now.list }
    {
        self.by_run.values().as_slice()
    }

    pub fn get(&self, place: usize) -> Child
        requires { place < length self.now.list }
        ensures { slice_get self.now.list place ≡ Some result }
    {
        self.as_slice()[place]
    }

    // The place of a run's child.
    pub fn place_of(&self, run: RunNo) -> Option<usize>
        ensures place { result ≡ position (λ child. same_run child.run run) self.now.list }
        ensures within { IfSome result (λ place. place < length self.now.list) }
    {
        self.by_run.get_index_of(&key_of(run))
    }

    // Makes room for one child more.
    pub fn room(&mut self) -> Result<(), AllocError>
        ensures list { self.new.list ≡ self.old.list }
        ensures room { OnOk result (0 < self.new.spare) }
        ensures kept { self.old.spare ≤ self.new.spare }
    {
        self.by_run.reserve(1)
    }

    // Adds a child at the end.
    pub fn push(&mut self, child: Child)
        requires room { 0 < self.old.spare }
        requires new { has_child child.run self.old.list ≡ false }
        ensures list { self.new.list ≡ self.old.list ++ child ∷ [] }
    {
        self.by_run.insert(key_of(child.run), child).unwrap();
    }

    // Removes the child at a place, which the last one takes.
    pub fn remove(&mut self, place: usize)
        requires { place < length self.old.list }
        ensures list { (any : Child) → self.new.list ≡ swap_remove self.old.list place any }
        ensures kept { self.old.spare ≤ self.new.spare }
    {
        self.by_run.swap_remove_index(place);
    }

    // The child at a place is doomed.
    pub fn doom(&mut self, place: usize)
        requires { place < length self.old.list }
        ensures list { IsSomeAnd (slice_get self.old.list place)
            (λ child. self.new.list ≡ set self.old.list place (as_doomed child)) }
        ensures kept { self.new.spare ≡ self.old.spare }
    {
        let child = self.by_run[place];
        self.by_run[place] = Child {
            run: child.run,
            number: child.number,
            doomed: true,
        };
    }
}
