ghost use Rattle.std.specs.Prelude.{◌≡◌, ◌≢◌, ◌<◌, ◌≤◌, ◌++◌, ◌∷◌, [], ℕ, List, true, None, Some, Ok, Err, length, IsOk, IfOk, IfErr, OnOk, is_some, slice_get};
ghost use Rattle.receipt_roll.specs.declared.roll.TheConstants.{MAX_ITEMS};
ghost use Rattle.pool_outer.specs.Cause.{HasCause};
ghost use Rattle.pool_outer.specs.declared.store.StoreError.TheVariants.{Failed};
ghost use Rattle.pool_outer.specs.Files.{bytes_in, Leaves, SameOthers};
ghost use Rattle.queue_tx.specs.Operations.{Operation};
ghost use Rattle.queue_tx.specs.Printable.{HasPrintableKeys, IsPrintable};
ghost use Rattle.queue_tx.specs.Queues.{KeyedAds, QueueOf, queue_after};
ghost use Rattle.queue_record.specs.Texts.{first_long, tx_text};
ghost use Rattle.pool_store.specs.Moments.{LeavesOnly};
ghost use Rattle.queue_log.specs.declared.log.Halt.{Halt};
ghost use Rattle.queue_log.specs.Logs.{IsAppended, IsAppendRefused, IsTorn, IsWhole, KeepsQueue, StandsDurably, StandsForEitherQueue, StandsForLog, StandsForLogQueue, receipt_of};
ghost use Rattle.queue_log.specs.Others.{KeepsOthers};
ghost use Rattle.queue_log.specs.Stands.{IsBeforeOrAfter};
ghost use Rattle.queue_log.specs.Writable.{IsWritableQueue};

use crate::error::LogError;
use crate::logged::Logged;
use ad_value::Text;
use pool_outer::{Store, StoreError};
use pool_store::append_solid;
use queue_tx::{Queue, Tx};
use receipt_roll::{Receipt, Roll};
use std::alloc::Global;
use std::marker::Model;

/// What a log answers once an append has failed.
pub struct Halt {
    pub(crate) error: LogError,
    /// The transaction that was not acknowledged. The file may have it, or a prefix of its text.
    pub(crate) pending: Tx,
}

impl Drop for Halt {
    fn drop(self) {
        let Halt {
            error: _,
            pending: _pending,
        } = self;
    }
}

/// A queue log in a file of a store. Contracts see it as a `LogValue`.
///
/// Over a store that tells what its files hold, what a stop leaves of the file stands for the
/// transactions of the log's roll, perhaps with the one whose append has failed.
#[derive(Drop)]
pub struct Log<D: Store> {
    pub(crate) store: D,
    pub(crate) name: Text,
    pub(crate) sequence: u64,
    pub(crate) logged: Logged,
    pub(crate) halt: Option<Halt>,
}

impl<D: Store> Model for Log<D> {
    ghost use Rattle.std.specs.Prelude.{◌≡◌, true};
    ghost use Rattle.std.specs.Coded.{codes};
    ghost use Rattle.ad_tree.specs.TreeCode.{tree_code};
    ghost use Rattle.queue_tx.specs.OperationCode.{key_code, operation_code};
    ghost use Rattle.queue_log.specs.contracts.log.Halt as of_halt;
    ghost use Rattle.queue_log.specs.Logs.{LogValue};

    ghost Value = { LogValue D };

    ghost coded = { Prim.hlevel
        (codes, tree_code, key_code, operation_code, of_halt.the_row.coded) };

    ghost view = { λ l. record {
      store = l.store;
      name = l.name;
      list = l.logged.list;
      mark = l.logged.mark;
      queue = l.logged.queue;
      sequence = l.sequence;
      halt = l.halt;
    } };

    ghost use Rattle.pool_outer.specs.Files.{bytes_in};
    ghost use Rattle.queue_log.specs.Logs.{KeepsLog};

    ghost invariant = { λ l. (D.known l.store l.name ≡ true)
        × (D.tells l.store ≡ true → KeepsLog l.halt l.logged.list l.logged.queue
        (bytes_in (D.file l.store l.name)) (D.solid l.store l.name)) };
}

impl<D: Store> Log<D> {
    /// The name of its file. Computes in O(1), without memory.
    pub fn name(&self) -> &str
        ensures { result.now ≡ self.now.name }
    {
        self.name.as_str()
    }

    /// The queue that the transactions build. Computes in O(1), without memory.
    pub fn queue(&self) -> &Queue
        ensures queue { result.now ≡ self.now.queue }
        ensures builds { QueueOf self.now.list self.now.queue }
        ensures writable { IsWritableQueue self.now.queue }
        ensures keys { HasPrintableKeys self.now.queue }
    {
        self.logged.queue()
    }

    /// The transactions of the file, in order. Computes in O(1), without memory.
    pub fn roll(&self) -> &Roll<Tx>
        ensures list { result.now.list ≡ self.now.list }
        ensures mark { result.now.mark ≡ self.now.mark }
        ensures images { D.tells self.now.store ≡ true → (image : List ℕ)
            → Leaves (D.file self.now.store) (D.solid self.now.store) self.now.name image
            → StandsForLog self.now.halt self.now.list image }
        ensures images_queue { D.tells self.now.store ≡ true → (image : List ℕ)
            → Leaves (D.file self.now.store) (D.solid self.now.store) self.now.name image
            → StandsForLogQueue self.now.halt self.now.queue image }
    {
        self.logged.roll()
    }

    /// Makes known that the receipt's transaction stands on the roll at the receipt's number,
    /// whatever thread held the receipt. Changes nothing. Computes in O(1), without memory.
    pub fn confirm(&mut self, receipt: &Receipt<Tx>)
        requires { receipt.now.mark ≡ self.old.mark }
        ensures same { self.new ≡ self.old }
        ensures item { slice_get self.old.list receipt.now.number ≡ Some receipt.now.item }
    {
        self.logged.confirm(receipt);
    }

    /// Whether an append has failed since which the log was not reattached. Computes in O(1),
    /// without memory.
    pub fn is_halted(&self) -> bool
        ensures { result ≡ is_some self.now.halt }
    {
        self.halt.is_some()
    }

    /// The store. Computes in O(1), without memory.
    pub fn into_store(self) -> D
        ensures { result ≡ self.store }
    {
        let Log { store, .. } = self;
        store
    }

    /// Writes a transaction at the end of the file, makes it solid, and then puts it on the roll
    /// and does it to the queue. It is refused where a line would be too long (`LogLine`) or the
    /// roll is full (`Roll`), and then, or where memory runs out first, nothing has changed. Where
    /// writing fails, or memory runs out in it, the log is halted: it answers the same error until
    /// it is reattached.
    /// Computes in O(bytes of the text), and in the time of `Queue::prepare`.
    pub fn append(&mut self, alloc: Global, tx: Tx) -> Result<Receipt<Tx>, LogError>
        requires applies { IsOk (queue_after self.old.queue tx) }
        requires printable { IsPrintable tx }

        // What it gives.
        ensures appended { OnOk result (IsAppended self.old self.new tx) }
        ensures receipt { IfOk result (λ receipt. receipt ≡ receipt_of self.old tx) }
        ensures within { OnOk result ((first_long tx ≡ None) × (length self.old.list < MAX_ITEMS)) }

        // When it is refused, and what is then left.
        ensures refused { self.old.halt ≡ None → IfErr result (IsAppendRefused self.old self.new tx
            (D.faults self.old.store) (D.faults self.new.store)) }
        ensures halted { (halt : Halt) → self.old.halt ≡ Some halt
            → (result ≡ Err halt.error) × (self.new ≡ self.old) }

        // What a stop leaves of the file, at any moment of the call and once it is answered by Ok.
        ensures any_moment { self.old.halt ≡ None → D.tells self.old.store ≡ true
            → LeavesOnly D.moment D.left_since self.old.name self.old.store self.new.store
            (IsBeforeOrAfter self.old.list tx) }
        ensures any_moment_queue { self.old.halt ≡ None → D.tells self.old.store ≡ true
            → LeavesOnly D.moment D.left_since self.old.name self.old.store self.new.store
            (StandsForEitherQueue self.old.queue tx) }
        ensures durable { D.tells self.old.store ≡ true
            → OnOk result (StandsDurably (D.file self.new.store) (D.solid self.new.store)
            self.new.name self.new.list) }
        ensures durable_queue { D.tells self.old.store ≡ true
            → OnOk result (KeepsQueue (D.file self.new.store) (D.solid self.new.store)
            self.new.name self.new.queue) }

        // The store's other files, the names that it knows, and its faults.
        ensures others { D.tells self.old.store ≡ true
            → SameOthers self.old.name (D.file self.old.store) (D.file self.new.store)
            (D.solid self.old.store) (D.solid self.new.store) }
        ensures quiet { D.tells self.old.store ≡ true → (other : List ℕ) → other ≢ self.old.name
            → LeavesOnly D.moment D.left_since other self.old.store self.new.store
            (Leaves (D.file self.old.store) (D.solid self.old.store) other) }
        ensures known { (other : List ℕ) → D.known self.old.store other ≡ true
            → D.known self.new.store other ≡ true }
        ensures told { D.tells self.new.store ≡ D.tells self.old.store }
        ensures later { D.faults self.old.store ≤ D.faults self.new.store }
        ensures steady { OnOk result (D.faults self.new.store ≡ D.faults self.old.store) }
    {
        if let Some(halt) = &self.halt {
            return Err(halt.error);
        }
        let ready = self.logged.prepare(alloc, &tx)?;
        if let Err(error) = write_tx(
            alloc,
            &mut self.store,
            self.name.as_str(),
            ready.text.as_str(),
            &tx,
        ) {
            let error = LogError::from(error);
            self.halt = Some(Halt { error, pending: tx });
            return Err(error);
        }
        Ok(self.logged.commit(tx, ready))
    }
}

// Writes a transaction behind whole ones.
fn write_tx<D: Store>(
    alloc: Global,
    store: &mut D,
    name: &str,
    text: &str,
    tx: &Tx,
) -> Result<(), StoreError>
    requires text { text.now ≡ tx_text tx.now }
    requires printable { IsPrintable tx.now }
    requires fits { first_long tx.now ≡ None }

    ensures whole { D.tells store.old ≡ true
        → (list : List (List Operation)) (queue after : KeyedAds)
        → IsWhole list queue (bytes_in (D.file store.old name.now)) (D.solid store.old name.now)
        → queue_after queue tx.now ≡ Ok after
        → OnOk result (IsWhole (list ++ tx.now ∷ []) after
        (bytes_in (D.file store.new name.now)) (D.solid store.new name.now)) }
    ensures torn { D.tells store.old ≡ true
        → (list : List (List Operation)) (queue after : KeyedAds)
        → IsWhole list queue (bytes_in (D.file store.old name.now)) (D.solid store.old name.now)
        → queue_after queue tx.now ≡ Ok after
        → IsTorn list queue tx.now
        (bytes_in (D.file store.new name.now)) (D.solid store.new name.now) }
    ensures any_moment { D.tells store.old ≡ true
        → (list : List (List Operation)) (queue after : KeyedAds)
        → IsWhole list queue (bytes_in (D.file store.old name.now)) (D.solid store.old name.now)
        → queue_after queue tx.now ≡ Ok after
        → LeavesOnly D.moment D.left_since name.now store.old store.new
        (IsBeforeOrAfter list tx.now) }
    ensures others { D.tells store.old ≡ true
        → KeepsOthers D.file D.solid D.moment D.left_since name.now store.old store.new }

    ensures present { result ≢ Err StoreError.Missing }
    ensures known { (other : List ℕ) → D.known store.old other ≡ true
        → D.known store.new other ≡ true }
    ensures told { D.tells store.new ≡ D.tells store.old }
    ensures cause { HasCause Failed (D.faults store.old) (D.faults store.new) result }
{
    append_solid(alloc, store, name, text.as_bytes())
}
