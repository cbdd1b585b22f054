// Going on with the log's file after a crash of its daemon.

ghost use Rattle.std.specs.Prelude.{◌≡◌, ◌≢◌, ◌⊎◌, ◌↔◌, ◌<◌, ◌≤◌, ◌^◌, ℕ, List, true, None, Some, length, IsTrue, IfOk, IfErr, IfSome, OnOk, OnErr};
ghost use Rattle.std.specs.Option.{option_map};
ghost use Rattle.pool_outer.specs.Files.{bytes_in, Leaves, SameOthers};
ghost use Rattle.pool_store.specs.Moments.{KeepsFile, LeavesOnly};
ghost use Rattle.receipt_roll.specs.declared.roll.TheConstants.{MAX_ITEMS};
ghost use Rattle.queue_log.specs.Files.{IsReadOf, IsReadRefusal};
ghost use Rattle.queue_log.specs.Logged.{IsBeyond, IsLogged, IsNext};
ghost use Rattle.queue_log.specs.Logs.{KeepsQueue, StandsDurably, StandsForLog, StandsForLogQueue, StandsForQueue};
ghost use Rattle.queue_log.specs.Others.{KeepsOthers};
ghost use Rattle.queue_log.specs.Reattaching.{IsFound, IsOfPending, IsPendingRefused, IsPendingTx, IsReattached, IsReattachRefused, IsReread, IsRereadRefused};
ghost use Rattle.queue_log.specs.Stands.{bad_line};

use crate::error::LogError;
use crate::log::{Halt, Log};
use crate::logged::{Logged, More};
use crate::read::read_log;
use crate::same::is_same_tx;
use pool_outer::Store;
use pool_store::cut_after;
use queue_record::ReadLog;
use queue_tx::{Queue, Tx, TxList};
use receipt_roll::Receipt;
use std::alloc::Global;

impl<D: Store> Log<D> {
    /// Goes on after a crash of the log's daemon, or after an append that has failed: the file is
    /// made solid and read again, and what follows its last whole transaction is cut. Where the
    /// transaction of the failed append stayed as a whole, it is put on the roll and done to the
    /// queue, and its receipt is handed out.
    ///
    /// `BadRecord` has the first bad line, from 1, or line 0 where the file differs from what the
    /// log wrote, or has a further transaction that isn't that of the failed append; `Limit` says
    /// that the roll has no room for what stayed. After an error the log is as it was: one that was
    /// halted still is. Computes in O(bytes of the file), and in the time of the transactions.
    pub fn reattach(&mut self, alloc: Global) -> Result<Option<Receipt<Tx>>, LogError>
        // What it gives.
        ensures reattached { IfOk result (IsReattached self.old self.new) }
        ensures found { D.tells self.old.store ≡ true → IfOk result
            (IsFound self.old.halt self.old.list
            (bytes_in (D.file self.old.store self.old.name))
            (bytes_in (D.file self.new.store self.new.name))) }
        ensures found_queue { D.tells self.old.store ≡ true → OnOk result
            (StandsForQueue self.new.queue (bytes_in (D.file self.old.store self.old.name))) }
        ensures pending { IfOk result (λ kept. IfSome kept (IsOfPending self.old.halt)) }
        ensures within { IfOk result
            (λ kept. IfSome kept (λ _. length self.old.list < MAX_ITEMS)) }

        // When it is refused, and what is then left.
        ensures refused { IfErr result (IsReattachRefused (D.tells self.old.store)
            (bytes_in (D.file self.old.store self.old.name)) self.old.list
            (D.faults self.old.store) (D.faults self.new.store)) }
        ensures same { OnErr result (self.new ≡ record self.old { store = self.new.store }) }
        ensures uncut { D.tells self.old.store ≡ true → OnErr result
            (bytes_in (D.file self.new.store self.new.name)
            ≡ bytes_in (D.file self.old.store self.old.name)) }

        // What a stop leaves of the file, at any moment of the call and once it is answered by Ok.
        ensures any_moment { D.tells self.old.store ≡ true
            → LeavesOnly D.moment D.left_since self.old.name self.old.store self.new.store
            (StandsForLog self.old.halt self.old.list) }
        ensures any_moment_queue { D.tells self.old.store ≡ true
            → LeavesOnly D.moment D.left_since self.old.name self.old.store self.new.store
            (StandsForLogQueue self.old.halt self.old.queue) }
        ensures durable { D.tells self.old.store ≡ true
            → OnOk result (StandsDurably (D.file self.new.store) (D.solid self.new.store)
            self.new.name self.new.list) }
        ensures durable_queue { D.tells self.old.store ≡ true
            → OnOk result (KeepsQueue (D.file self.new.store) (D.solid self.new.store)
            self.new.name self.new.queue) }

        // The store's other files, the names that it knows, and its faults.
        ensures others { D.tells self.old.store ≡ true
            → SameOthers self.old.name (D.file self.old.store) (D.file self.new.store)
            (D.solid self.old.store) (D.solid self.new.store) }
        ensures quiet { D.tells self.old.store ≡ true → (other : List ℕ) → other ≢ self.old.name
            → LeavesOnly D.moment D.left_since other self.old.store self.new.store
            (Leaves (D.file self.old.store) (D.solid self.old.store) other) }
        ensures known { (other : List ℕ) → D.known self.old.store other ≡ true
            → D.known self.new.store other ≡ true }
        ensures told { D.tells self.new.store ≡ D.tells self.old.store }
        ensures later { D.faults self.old.store ≤ D.faults self.new.store }
        ensures steady { OnOk result (D.faults self.new.store ≡ D.faults self.old.store) }
    {
        let more = match reread(
            alloc,
            &mut self.store,
            self.name.as_str(),
            &self.halt,
            &mut self.logged,
        ) {
            Ok(more) => more,
            Err(error) => return Err(error),
        };
        self.halt = None;
        match more {
            Some(more) => Ok(Some(self.logged.take(more))),
            None => Ok(None),
        }
    }
}

// Reads what a file has beyond the roll, the transaction of a failed append or nothing, and cuts
// what follows its last whole transaction.
fn reread<D: Store>(
    alloc: Global,
    store: &mut D,
    name: &str,
    halt: &Option<Halt>,
    logged: &mut Logged,
) -> Result<Option<More>, LogError>
    requires { D.known store.old name.now ≡ true }

    // What is read.
    ensures reread { D.tells store.old ≡ true → IfOk result
        (IsReread logged.old.list (bytes_in (D.file store.old name.now))
        (bytes_in (D.file store.new name.now)) (D.solid store.new name.now)) }
    ensures next { IfOk result
        (λ more. IfSome more (IsNext logged.old.list logged.old.queue logged.new.spare)) }
    ensures pending { IfOk result (λ more. IfSome more (λ m. IsPendingTx halt.now m.tx)) }
    ensures refused { IfErr result (IsRereadRefused halt.now (D.tells store.old)
        (bytes_in (D.file store.old name.now)) logged.old.list
        (D.faults store.old) (D.faults store.new)) }

    // What is logged.
    ensures list { logged.new.list ≡ logged.old.list }
    ensures queue { logged.new.queue ≡ logged.old.queue }
    ensures mark { logged.new.mark ≡ logged.old.mark }

    // The files.
    ensures same { D.tells store.old ≡ true
        → OnErr result (D.file store.new name.now ≡ D.file store.old name.now) }
    ensures no_less { D.tells store.old ≡ true
        → OnErr result (D.solid store.old name.now ≤ D.solid store.new name.now) }
    ensures any_moment { D.tells store.old ≡ true
        → LeavesOnly D.moment D.left_since name.now store.old store.new
        (λ image. Leaves (D.file store.old) (D.solid store.old) name.now image
        ⊎ Leaves (D.file store.new) (D.solid store.new) name.now image) }
    ensures others { D.tells store.old ≡ true
        → KeepsOthers D.file D.solid D.moment D.left_since name.now store.old store.new }

    // The names, what the store tells, and its faults.
    ensures known { (other : List ℕ) → D.known store.old other ≡ true
        → D.known store.new other ≡ true }
    ensures told { D.tells store.new ≡ D.tells store.old }
    ensures later { D.faults store.old ≤ D.faults store.new }
    ensures steady { OnOk result (D.faults store.new ≡ D.faults store.old) }
{
    let (size, read) = match read_again(alloc, store, name) {
        Ok(again) => again,
        Err(error) => return Err(error),
    };
    let ReadLog {
        list,
        queue,
        whole,
        ..
    } = read;
    let more = match pending_beyond(alloc, logged, halt, list, queue) {
        Ok(more) => more,
        Err(error) => return Err(error),
    };
    match cut_after(alloc, store, name, size, whole) {
        Ok(()) => Ok(more),
        Err(error) => Err(LogError::from(error)),
    }
}

// What a list that was read has beyond the roll: the transaction of a failed append, or nothing.
fn pending_beyond(
    alloc: Global,
    logged: &mut Logged,
    halt: &Option<Halt>,
    list: TxList,
    queue: Queue,
) -> Result<Option<More>, LogError>
    requires { IsLogged list queue }

    // What there is.
    ensures beyond { IfOk result (IsBeyond list queue logged.old.list) }
    ensures next { IfOk result
        (λ more. IfSome more (IsNext logged.old.list logged.old.queue logged.new.spare)) }
    ensures pending { IfOk result (λ more. IfSome more (λ m. IsPendingTx halt.now m.tx)) }
    ensures refused { IfErr result (IsPendingRefused halt.now list logged.old.list) }

    // What is logged.
    ensures list { logged.new.list ≡ logged.old.list }
    ensures queue { logged.new.queue ≡ logged.old.queue }
    ensures mark { logged.new.mark ≡ logged.old.mark }
{
    let more = match logged.beyond(alloc, list, queue) {
        Ok(more) => more,
        Err(error) => return Err(error),
    };
    match more {
        None => Ok(None),
        Some(more) => {
            if is_pending(halt, &more.tx) {
                Ok(Some(more))
            } else {
                Err(LogError::BadRecord { line: 0 })
            }
        }
    }
}

fn is_pending(halt: &Option<Halt>, tx: &Tx) -> bool
    ensures { IsTrue result ↔ IsPendingTx halt.now tx.now }
{
    match halt {
        Some(halt) => is_same_tx(tx, &halt.pending),
        None => false,
    }
}

// The size of a file, and what its bytes stand for, once all of it is solid.
fn read_again<D: Store>(
    alloc: Global,
    store: &mut D,
    name: &str,
) -> Result<(u64, ReadLog), LogError>
    requires { D.known store.old name.now ≡ true }

    // What is read.
    ensures logged { IfOk result (λ r. IsLogged r.1.list r.1.queue) }
    ensures read { D.tells store.old ≡ true
        → IfOk result (λ r. IsReadOf (bytes_in (D.file store.old name.now)) r.1) }
    ensures size { D.tells store.old ≡ true
        → IfOk result (λ r. option_map length (D.file store.new name.now) ≡ Some r.0) }
    ensures solid { D.tells store.old ≡ true
        → IfOk result (λ r. r.0 ≤ D.solid store.new name.now) }
    ensures small { D.tells store.old ≡ true
        → OnOk result (length (bytes_in (D.file store.old name.now)) < 2 ^ 64) }
    ensures refused { IfErr result (IsReadRefusal (λ line. D.tells store.old ≡ true
        → bad_line (bytes_in (D.file store.old name.now)) ≡ Some line)
        (D.faults store.old) (D.faults store.new)) }

    // The files.
    ensures keeps { D.tells store.old ≡ true
        → KeepsFile D.file D.solid D.moment D.left_since name.now store.old store.new }
    ensures others { D.tells store.old ≡ true
        → KeepsOthers D.file D.solid D.moment D.left_since name.now store.old store.new }

    // The names, what the store tells, and its faults.
    ensures known { (other : List ℕ) → D.known store.old other ≡ true
        → D.known store.new other ≡ true }
    ensures told { D.tells store.new ≡ D.tells store.old }
    ensures later { D.faults store.old ≤ D.faults store.new }
    ensures steady { OnOk result (D.faults store.new ≡ D.faults store.old) }
{
    let size = match store.size(alloc, name) {
        Ok(size) => size,
        Err(error) => return Err(LogError::from(error)),
    };
    match read_log(alloc, store, name, size) {
        Ok(read) => Ok((size, read)),
        Err(error) => Err(error),
    }
}
