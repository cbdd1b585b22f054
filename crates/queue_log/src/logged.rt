ghost use Rattle.std.specs.Prelude.{◌≡◌, ◌≢◌, ◌<◌, ◌≤◌, ◌++◌, ◌∷◌, [], List, length, Some, None, Ok, IsOk, IfOk, IfErr, IfSome, IsSomeAnd, MatchOption, OnOk, slice_get};
ghost use Rattle.pool_outer.specs.declared.limit.Which.TheVariants as which;
ghost use Rattle.receipt_roll.specs.declared.roll.TheConstants.{MAX_ITEMS};
ghost use Rattle.queue_record.specs.Texts.{first_long, tx_text};
ghost use Rattle.queue_tx.specs.Operations.{Operation};
ghost use Rattle.queue_tx.specs.Printable.{IsPrintable};
ghost use Rattle.queue_tx.specs.Queues.{queue_after};
ghost use Rattle.queue_log.specs.Logged.{IsBeyond, IsBeyondRefused, IsLogged, IsNext, IsOverLimit, IsReadyFor, IsTooMany, logged_receipt};

use crate::error::LogError;
use crate::same::is_same_list;
use ad_value::{Copied, Text};
use queue_record::print_tx;
use queue_tx::{Prepared, Queue, Tx, TxList};
use receipt_roll::{Receipt, Roll};
use std::alloc::Global;
use std::marker::Model;

/// What a log has logged: the transactions, and the queue that they build.
pub(crate) struct Logged {
    roll: Roll<Tx>,
    queue: Queue,
}

impl Drop for Logged {
    fn drop(self) {
        let Logged {
            roll: _roll,
            queue: _queue,
        } = self;
    }
}

/// What a transaction takes to be logged, with the memory for it.
pub(crate) struct Ready {
    pub(crate) text: Text,
    pub(crate) copy: Tx,
    pub(crate) changes: Prepared,
}

impl Drop for Ready {
    fn drop(self) {
        let Ready {
            text: _text,
            copy: _copy,
            changes: _changes,
        } = self;
    }
}

impl Ready {
    // What a transaction takes whose text is printed.
    fn with_text(alloc: Global, text: Text, queue: &Queue, tx: &Tx) -> Result<Ready, LogError>
        requires text { text ≡ tx_text tx.now }
        requires fits { first_long tx.now ≡ None }
        requires applies { IsOk (queue_after queue.now tx.now) }
        ensures ready { IfOk result (IsReadyFor queue.now tx.now) }
        ensures refused { (list : List (List Operation))
            → IfErr result (IsOverLimit list tx.now) }
    {
        let copy = tx.copy(alloc)?;
        match queue.prepare(alloc, tx) {
            Ok(changes) => Ok(Ready {
                text,
                copy,
                changes,
            }),
            Err(_) => Err(LogError::Memory),
        }
    }

    fn into_parts(self) -> (Tx, Prepared)
        ensures { result ≡ (self.copy, self.changes) }
    {
        let Ready {
            text: _text,
            copy,
            changes,
        } = self;
        (copy, changes)
    }
}

/// A transaction that was read beyond the roll, twice, and the queue with it done.
pub(crate) struct More {
    pub(crate) tx: Tx,
    pub(crate) copy: Tx,
    pub(crate) queue: Queue,
}

impl Drop for More {
    fn drop(self) {
        let More {
            tx: _tx,
            copy: _copy,
            queue: _queue,
        } = self;
    }
}

impl More {
    fn into_parts(self) -> (Tx, Tx, Queue)
        ensures { result ≡ (self.tx, self.copy, self.queue) }
    {
        let More { tx, copy, queue } = self;
        (tx, copy, queue)
    }
}

impl Model for Logged {
    ghost use Rattle.std.specs.Coded.{codes};
    ghost use Rattle.ad_tree.specs.TreeCode.{tree_code};
    ghost use Rattle.queue_tx.specs.OperationCode.{key_code, operation_code};
    ghost use Rattle.queue_log.specs.Logged.{LoggedValue};

    ghost Value = { LoggedValue };

    ghost coded = { Prim.hlevel (codes, tree_code, key_code, operation_code) };

    ghost view = { λ l. record {
      list = l.roll.list;
      queue = l.queue;
      spare = l.roll.spare;
      mark = l.roll.mark;
    } };

    ghost use Rattle.queue_log.specs.Logged.{IsLogged};

    ghost invariant = { λ l. IsLogged l.roll.list l.queue };
}

impl Logged {
    // The transactions that were read, and their queue.
    pub(crate) fn new(alloc: Global, list: TxList, queue: Queue) -> Result<Logged, LogError>
        requires { IsLogged list queue }
        ensures made { IfOk result (λ l. (l.list ≡ list) × (l.queue ≡ queue)) }
        ensures fits { OnOk result (length list ≤ MAX_ITEMS) }
        ensures refused { IfErr result (IsTooMany list) }
    {
        let mut roll = Roll::new(alloc);
        if let Err(error) = roll.room(list.len() as u64) {
            return Err(LogError::from(error));
        }
        fill(alloc, &mut roll, list)?;
        Ok(Logged { roll, queue })
    }

    pub(crate) fn roll(&self) -> &Roll<Tx>
        ensures list { result.now.list ≡ self.now.list }
        ensures mark { result.now.mark ≡ self.now.mark }
    {
        &self.roll
    }

    pub(crate) fn queue(&self) -> &Queue
        ensures queue { result.now ≡ self.now.queue }
        ensures logged { IsLogged self.now.list self.now.queue }
    {
        &self.queue
    }

    pub(crate) fn confirm(&mut self, receipt: &Receipt<Tx>)
        requires { receipt.now.mark ≡ self.old.mark }
        ensures same { self.new ≡ self.old }
        ensures item { slice_get self.old.list receipt.now.number ≡ Some receipt.now.item }
    {
        self.roll.confirm(receipt);
    }

    // All that a transaction takes, and room for it on the roll.
    pub(crate) fn prepare(&mut self, alloc: Global, tx: &Tx) -> Result<Ready, LogError>
        requires { IsOk (queue_after self.old.queue tx.now) }
        ensures ready { IfOk result (IsReadyFor self.old.queue tx.now) }
        ensures room { OnOk result (0 < self.new.spare) }
        ensures within { OnOk result (length self.old.list < MAX_ITEMS) }
        ensures refused { IfErr result (IsOverLimit self.old.list tx.now) }
        ensures list { self.new.list ≡ self.old.list }
        ensures queue { self.new.queue ≡ self.old.queue }
        ensures mark { self.new.mark ≡ self.old.mark }
    {
        let text = match print_tx(alloc, tx) {
            Ok(text) => text,
            Err(error) => return Err(LogError::from(error)),
        };
        if let Err(error) = self.roll.room(1) {
            return Err(LogError::from(error));
        }
        Ready::with_text(alloc, text, &self.queue, tx)
    }

    // Logs a transaction for which all is ready, without memory.
    pub(crate) fn commit(&mut self, tx: Tx, ready: Ready) -> Receipt<Tx>
        requires ready { IsReadyFor self.old.queue tx ready }
        requires printable { IsPrintable tx }
        requires room { 0 < self.old.spare }
        ensures receipt { result ≡ logged_receipt self.old tx }
        ensures list { self.new.list ≡ self.old.list ++ tx ∷ [] }
        ensures queue { queue_after self.old.queue tx ≡ Ok self.new.queue }
        ensures mark { self.new.mark ≡ self.old.mark }
    {
        let (copy, changes) = ready.into_parts();
        self.queue.commit(changes);
        self.roll.append(tx, copy).unwrap()
    }
}

impl Logged {
    // The one transaction that a list which was read has beyond the roll, with the queue of that
    // list, and room for it on the roll.
    pub(crate) fn beyond(
        &mut self,
        alloc: Global,
        list: TxList,
        queue: Queue,
    ) -> Result<Option<More>, LogError>
        requires { IsLogged list queue }
        ensures beyond { IfOk result (IsBeyond list queue self.old.list) }
        ensures next { IfOk result
            (λ more. IfSome more (IsNext self.old.list self.old.queue self.new.spare)) }
        ensures refused { IfErr result (IsBeyondRefused list self.old.list) }
        ensures list { self.new.list ≡ self.old.list }
        ensures queue { self.new.queue ≡ self.old.queue }
        ensures mark { self.new.mark ≡ self.old.mark }
    {
        let (txs, last) = split_last(list, self.roll.items().len());
        if !is_same_list(&txs, self.roll.items()) {
            return Err(LogError::BadRecord { line: 0 });
        }
        match last {
            Some(tx) => self.more(alloc, tx, queue),
            None => Ok(None),
        }
    }

    fn more(&mut self, alloc: Global, tx: Tx, queue: Queue) -> Result<Option<More>, LogError>
        requires { IsLogged (self.old.list ++ tx ∷ []) queue }
        ensures some { IfOk result
            (λ more. IsSomeAnd more (λ m. (m.tx ≡ tx) × (m.queue ≡ queue))) }
        ensures next { IfOk result
            (λ more. IfSome more (IsNext self.old.list self.old.queue self.new.spare)) }
        ensures refused { IfErr result (λ e. e ≢ LogError.Memory
            → (e ≡ LogError.Limit which.Roll) × (MAX_ITEMS ≤ length self.old.list)) }
        ensures list { self.new.list ≡ self.old.list }
        ensures queue { self.new.queue ≡ self.old.queue }
        ensures mark { self.new.mark ≡ self.old.mark }
    {
        if let Err(error) = self.roll.room(1) {
            return Err(LogError::from(error));
        }
        let copy = tx.copy(alloc)?;
        Ok(Some(More { tx, copy, queue }))
    }

    // Takes in the transaction that was read beyond the roll, without memory.
    pub(crate) fn take(&mut self, more: More) -> Receipt<Tx>
        requires { IsNext self.old.list self.old.queue self.old.spare more }
        ensures receipt { result ≡ logged_receipt self.old more.tx }
        ensures list { self.new.list ≡ self.old.list ++ more.tx ∷ [] }
        ensures queue { self.new.queue ≡ more.queue }
        ensures mark { self.new.mark ≡ self.old.mark }
    {
        let (tx, copy, queue) = more.into_parts();
        self.queue = queue;
        self.roll.append(tx, copy).unwrap()
    }
}

// The transactions of a list, and the last by itself where there are more than so many.
fn split_last(list: TxList, count: usize) -> (Vec<Tx>, Option<Tx>)
    ensures { MatchOption result.1 ((result.0.items ≡ list) × (length list ≤ count))
        (λ tx. (list ≡ result.0.items ++ tx ∷ []) × (count < length list)) }
{
    let mut txs = list.into_vec();
    if txs.len() <= count {
        return (txs, None);
    }
    let last = txs.pop();
    (txs, last)
}

// Puts transactions on a roll that has room for them.
fn fill(alloc: Global, roll: &mut Roll<Tx>, list: TxList) -> Result<(), LogError>
    requires { length list ≤ roll.old.spare }
    ensures filled { OnOk result (roll.new.list ≡ roll.old.list ++ list) }
    ensures refused { IfErr result (λ e. e ≡ LogError.Memory) }
{
    'items: for tx in list.into_vec() {
        let copy = tx.copy(alloc)?;
        let _receipt = roll.append(tx, copy).unwrap();
    }
    Ok(())
}
