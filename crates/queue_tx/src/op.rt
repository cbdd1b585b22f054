ghost use Rattle.std.specs.Prelude.{◌≡◌, IfOk};
ghost use Rattle.queue_tx.specs.Operations.{operation, key_of};

use crate::key::Key;
use ad_tree::Expr;
use ad_value::{Copied, Memory, Text};
use std::alloc::Global;

/// One change of the queue. Contracts see it as an `Operation`.
pub enum Op {
    /// A new ad, without attributes. The two words are those that the log keeps beside the key.
    NewAd { key: Key, kind: Text, other: Text },
    /// The ad goes.
    DestroyAd { key: Key },
    /// The ad has this expression under this name.
    SetAttr { key: Key, name: Text, expr: Expr },
    /// The ad has nothing under this name.
    DeleteAttr { key: Key, name: Text },
}

impl Drop for Op {
    fn drop(self) {
        match self {
            Op::NewAd {
                key: _,
                kind: _kind,
                other: _other,
            } => {}
            Op::DestroyAd { key: _ } => {}
            Op::SetAttr {
                key: _,
                name: _name,
                expr: _expr,
            } => {}
            Op::DeleteAttr {
                key: _,
                name: _name,
            } => {}
        }
    }
}

impl Op {
    /// The key of the ad that it changes. Computes in O(1).
    pub fn key(&self) -> Key
        ensures { result ≡ key_of (operation self.now) }
    {
        match self {
            Op::NewAd { key, .. } => *key,
            Op::DestroyAd { key } => *key,
            Op::SetAttr { key, .. } => *key,
            Op::DeleteAttr { key, .. } => *key,
        }
    }

    /// An equal operation. Computes in O(size).
    pub fn copy(&self, alloc: Global) -> Result<Op, Memory>
        ensures { IfOk result (λ op. operation op ≡ operation self.now) }
    {
        Ok(match self {
            Op::NewAd { key, kind, other } => Op::NewAd {
                key: *key,
                kind: kind.copy(alloc)?,
                other: other.copy(alloc)?,
            },
            Op::DestroyAd { key } => Op::DestroyAd { key: *key },
            Op::SetAttr { key, name, expr } => Op::SetAttr {
                key: *key,
                name: name.copy(alloc)?,
                expr: expr.copy(alloc)?,
            },
            Op::DeleteAttr { key, name } => Op::DeleteAttr {
                key: *key,
                name: name.copy(alloc)?,
            },
        })
    }
}
