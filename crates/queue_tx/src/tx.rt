ghost use Rattle.std.specs.Prelude.{◌≡◌, ◌↔◌, [], ◌∷◌, ◌++◌, length, map, IsTrue, OnOk, OnErr};
ghost use Rattle.queue_tx.specs.Operations.{operation};

use crate::op::Op;
use ad_value::{Copied, Memory, Seq};
use std::alloc::Global;
use std::marker::Model;

/// Operations that stand or fall together. Contracts see the list of `Operation`s.
pub struct Tx {
    ops: Vec<Op>,
}

impl Drop for Tx {
    fn drop(self) {
        let Tx { ops: _ops } = self;
    }
}

/// A list of transactions.
pub type TxList = Seq<Tx>;

impl Model for Tx {
    ghost use Rattle.std.specs.Prelude.{List, map};
    ghost use Rattle.queue_tx.specs.Operations.{Operation, operation};
    ghost use Rattle.queue_tx.specs.OperationCode.{operations_code};

    ghost Value = { List Operation };

    ghost coded = { operations_code };

    ghost view = { λ t. map operation t.ops.items };
}

impl Tx {
    /// The transaction without operations, without memory. Computes in O(1).
    pub fn new(alloc: Global) -> Tx
        ensures { result ≡ [] }
    {
        Tx {
            ops: Vec::new(alloc),
        }
    }

    /// The transaction of these operations, without memory. Computes in O(1).
    pub fn from_vec(ops: Vec<Op>) -> Tx
        ensures { result ≡ map operation ops.items }
    {
        Tx { ops }
    }

    /// The operations, in order. Computes in O(1).
    pub fn ops(&self) -> &[Op]
        ensures { map operation result.now ≡ self.now }
    {
        self.ops.as_slice()
    }

    /// How many operations there are. Computes in O(1).
    pub fn len(&self) -> usize
        ensures { result ≡ length self.now }
    {
        self.ops.len()
    }

    /// Whether there are no operations. Computes in O(1).
    pub fn is_empty(&self) -> bool
        ensures { IsTrue result ↔ (self.now ≡ []) }
    {
        self.ops.is_empty()
    }

    /// Adds an operation at the end. Computes in O(1) on average. An error leaves the transaction
    /// as it was, and the operation is dropped.
    pub fn push(&mut self, op: Op) -> Result<(), Memory>
        ensures ok { OnOk result (self.new ≡ self.old ++ operation op ∷ []) }
        ensures err { OnErr result (self.new ≡ self.old) }
    {
        self.ops.push(op)?;
        Ok(())
    }
}

impl Copied for Tx {
    fn copy(&self, alloc: Global) -> Result<Tx, Memory> {
        let mut ops = Vec::new(alloc);
        for op in &self.ops {
            ops.push(op.copy(alloc)?)?;
        }
        Ok(Tx { ops })
    }
}
