use ad_tree::Expr;
use ad_value::{Memory, Text, Value};
use claim_id::JobId;
use queue_tx::{ApplyError, Key, Op, Queue, Tx};
use std::alloc::Global;

/// A transaction for each of so many jobs, which sets one of its attributes.
pub(crate) fn renewals(alloc: Global, count: u32) -> Result<Vec<Tx>, Memory> {
    let mut changes = Vec::new(alloc);
    for proc in 0..count {
        changes.push(renewal(alloc, proc)?)?;
    }
    Ok(changes)
}

fn renewal(alloc: Global, proc: u32) -> Result<Tx, Memory> {
    let mut tx = Tx::new(alloc);
    tx.push(Op::SetAttr {
        key: Key::Proc(JobId { cluster: 1, proc }),
        name: Text::from_str(alloc, "JobPrio")?,
        expr: Expr::Lit(Value::Int(7)),
    })?;
    Ok(tx)
}

/// Prepares each transaction, and does none.
pub(crate) fn prepare_all(alloc: Global, queue: &Queue, changes: &[Tx]) -> Result<(), ApplyError> {
    for tx in changes {
        let _prepared = queue.prepare(alloc, tx)?;
    }
    Ok(())
}

/// Does each transaction.
pub(crate) fn change_all(
    alloc: Global,
    queue: &mut Queue,
    changes: &[Tx],
) -> Result<(), ApplyError> {
    for tx in changes {
        let prepared = queue.prepare(alloc, tx)?;
        queue.commit(prepared);
    }
    Ok(())
}
