ghost use Rattle.std.specs.Prelude.{◌≡◌, ◌≢◌, ◌<◌, ◌≤◌, ℕ, List, true, None, Some, length, IfOk, IfErr, OnOk, OnErr, string_bytes};
ghost use Rattle.std.specs.Option.{option_map};
ghost use Rattle.pool_outer.specs.declared.clock.TheConstants.{LAST_READING};
ghost use Rattle.pool_outer.specs.Files.{bytes_in, Leaves, SameOthers};
ghost use Rattle.pool_store.specs.Moments.{LeavesOnly};
ghost use Rattle.queue_log.specs.Logged.{IsLogged, IsTooMany};
ghost use Rattle.queue_log.specs.NewLog.{new_log_text};
ghost use Rattle.queue_log.specs.Logs.{IsBegun, IsOpened, IsRecovered, IsRecoverRefused, IsUncut, LeavesOpening, StandsForOpening, recovered_store};
ghost use Rattle.queue_log.specs.Others.{IsSurelyThere, KeepsOthers};

use crate::error::LogError;
use crate::log::Log;
use crate::logged::Logged;
use crate::new_log::new_log;
use crate::read::read_log;
use ad_value::Text;
use pool_outer::{Store, StoreError};
use pool_store::{append_solid, cut_after};
use queue_record::ReadLog;
use queue_tx::{Queue, TxList};
use std::alloc::Global;

/// What a log begins with.
struct Opening {
    name: Text,
    sequence: u64,
    logged: Logged,
}

impl Drop for Opening {
    fn drop(self) {
        let Opening {
            name: _name,
            sequence: _,
            logged: _logged,
        } = self;
    }
}

impl Opening {
    fn into_parts(self) -> (Text, u64, Logged)
        ensures { result ≡ (self.name, self.sequence, self.logged) }
    {
        let Opening {
            name,
            sequence,
            logged,
        } = self;
        (name, sequence, logged)
    }
}

impl<D: Store> Log<D> {
    /// The log in the file of that name, with the queue that its transactions build; what follows
    /// its last whole transaction is cut. Where there is no file, or an empty one, it is made a new
    /// log, begun at the reading. A file that is there is made solid first.
    ///
    /// `BadRecord` has the first bad line, from 1. An error gives the store back; nothing was cut
    /// then, and where the log is new the file may have a prefix of its text. Computes in O(bytes
    /// of the file), and in the time of the transactions.
    pub fn recover(
        alloc: Global,
        mut store: D,
        name: &str,
        reading: u64,
    ) -> Result<Log<D>, (D, LogError)>
        requires { reading ≤ LAST_READING }

        // What it gives.
        ensures named { IfOk result (λ log. log.name ≡ name.now) }
        ensures goes_on { IfOk result (λ log. log.halt ≡ None) }
        ensures recovered { D.tells store ≡ true → IfOk result (λ log. IsRecovered
            (bytes_in (D.file store name.now)) (bytes_in (D.file log.store name.now)) reading
            log.list log.queue log.sequence) }

        // When it is refused, and what is then left.
        ensures refused { IfErr result (λ p. IsRecoverRefused (D.tells store)
            (bytes_in (D.file store name.now)) (D.faults store) (D.faults p.0) p.1) }
        ensures uncut { D.tells store ≡ true → IfErr result (λ p. IsUncut
            (bytes_in (D.file store name.now)) (bytes_in (D.file p.0 name.now)) reading) }

        // What a stop leaves of the file, at any moment of the call.
        ensures any_moment { D.tells store ≡ true
            → length (bytes_in (D.file store name.now)) ≤ D.solid store name.now
            → LeavesOnly D.moment D.left_since name.now store (recovered_store result)
            (StandsForOpening (bytes_in (D.file store name.now)) reading) }
        ensures any_moment_unsynced { D.tells store ≡ true
            → LeavesOpening D.file D.solid D.moment D.left_since name.now reading store
            (recovered_store result) }

        // The store's other files, the names that it knows, and its faults.
        ensures others { D.tells store ≡ true
            → SameOthers name.now (D.file store) (D.file (recovered_store result))
            (D.solid store) (D.solid (recovered_store result)) }
        ensures quiet { D.tells store ≡ true → (other : List ℕ) → other ≢ name.now
            → LeavesOnly D.moment D.left_since other store (recovered_store result)
            (Leaves (D.file store) (D.solid store) other) }
        ensures known { (other : List ℕ) → D.known store other ≡ true
            → D.known (recovered_store result) other ≡ true }
        ensures told { D.tells (recovered_store result) ≡ D.tells store }
        ensures later { D.faults store ≤ D.faults (recovered_store result) }
        ensures steady { IsSurelyThere (D.tells store) (D.file store) (D.known store) name.now
            → OnOk result (D.faults (recovered_store result) ≡ D.faults store) }
    {
        match begin_or_resume(alloc, &mut store, name, reading) {
            Ok(opening) => {
                let (name, sequence, logged) = opening.into_parts();
                Ok(Log {
                    store,
                    name,
                    sequence,
                    logged,
                    halt: None,
                })
            }
            Err(error) => Err((store, error)),
        }
    }
}

fn begin_or_resume<D: Store>(
    alloc: Global,
    store: &mut D,
    name: &str,
    reading: u64,
) -> Result<Opening, LogError>
    ensures named { IfOk result (λ opening. opening.name ≡ name.now) }
    ensures opened { D.tells store.old ≡ true → IfOk result
        (IsOpened (bytes_in (D.file store.old name.now)) (bytes_in (D.file store.new name.now))
        (D.solid store.new name.now) reading) }
    ensures refused { IfErr result (IsRecoverRefused (D.tells store.old)
        (bytes_in (D.file store.old name.now)) (D.faults store.old) (D.faults store.new)) }
    ensures uncut { D.tells store.old ≡ true → OnErr result (IsUncut
        (bytes_in (D.file store.old name.now)) (bytes_in (D.file store.new name.now)) reading) }
    ensures any_moment { D.tells store.old ≡ true
        → LeavesOpening D.file D.solid D.moment D.left_since name.now reading store.old store.new }
    ensures others { D.tells store.old ≡ true
        → KeepsOthers D.file D.solid D.moment D.left_since name.now store.old store.new }

    ensures known { OnOk result (D.known store.new name.now ≡ true) }
    ensures stays { (other : List ℕ) → D.known store.old other ≡ true
        → D.known store.new other ≡ true }
    ensures told { D.tells store.new ≡ D.tells store.old }
    ensures later { D.faults store.old ≤ D.faults store.new }
    ensures steady { IsSurelyThere (D.tells store.old) (D.file store.old) (D.known store.old)
        name.now → OnOk result (D.faults store.new ≡ D.faults store.old) }
{
    match store.size(alloc, name) {
        Ok(0) => begin(alloc, store, name, reading),
        Ok(size) => resume(alloc, store, name, size),
        Err(StoreError::Missing) => begin(alloc, store, name, reading),
        Err(StoreError::Failed) => Err(LogError::Disk),
        Err(StoreError::Memory) => Err(LogError::Memory),
    }
}

// Goes on with the log in a file of that size.
fn resume<D: Store>(
    alloc: Global,
    store: &mut D,
    name: &str,
    size: u64,
) -> Result<Opening, LogError>
    requires known { D.known store.old name.now ≡ true }
    requires size { D.tells store.old ≡ true
        → option_map length (D.file store.old name.now) ≡ Some size }
    requires some { 0 < size }

    ensures named { IfOk result (λ opening. opening.name ≡ name.now) }
    ensures opened { D.tells store.old ≡ true → IfOk result (λ opening. (reading : ℕ)
        → IsOpened (bytes_in (D.file store.old name.now)) (bytes_in (D.file store.new name.now))
        (D.solid store.new name.now) reading opening) }
    ensures refused { IfErr result (IsRecoverRefused (D.tells store.old)
        (bytes_in (D.file store.old name.now)) (D.faults store.old) (D.faults store.new)) }
    ensures uncut { D.tells store.old ≡ true → OnErr result
        (bytes_in (D.file store.new name.now) ≡ bytes_in (D.file store.old name.now)) }
    ensures any_moment { D.tells store.old ≡ true → (reading : ℕ)
        → LeavesOpening D.file D.solid D.moment D.left_since name.now reading store.old store.new }
    ensures others { D.tells store.old ≡ true
        → KeepsOthers D.file D.solid D.moment D.left_since name.now store.old store.new }

    ensures known { (other : List ℕ) → D.known store.old other ≡ true
        → D.known store.new other ≡ true }
    ensures told { D.tells store.new ≡ D.tells store.old }
    ensures later { D.faults store.old ≤ D.faults store.new }
    ensures steady { OnOk result (D.faults store.new ≡ D.faults store.old) }
{
    let ReadLog {
        list,
        queue,
        whole,
        sequence,
    } = match read_log(alloc, store, name, size) {
        Ok(read) => read,
        Err(error) => return Err(error),
    };
    let opening = match opening_of(alloc, name, sequence, list, queue) {
        Ok(opening) => opening,
        Err(error) => return Err(error),
    };
    match cut_after(alloc, store, name, size, whole) {
        Ok(()) => Ok(opening),
        Err(error) => Err(LogError::from(error)),
    }
}

// Begins a log in a file that isn't there or is empty.
fn begin<D: Store>(
    alloc: Global,
    store: &mut D,
    name: &str,
    reading: u64,
) -> Result<Opening, LogError>
    requires { D.tells store.old ≡ true
        → length (bytes_in (D.file store.old name.now)) ≡ 0 }

    ensures named { IfOk result (λ opening. opening.name ≡ name.now) }
    ensures opened { D.tells store.old ≡ true → IfOk result
        (IsOpened (bytes_in (D.file store.old name.now)) (bytes_in (D.file store.new name.now))
        (D.solid store.new name.now) reading) }
    ensures refused { IfErr result (IsRecoverRefused (D.tells store.old)
        (bytes_in (D.file store.old name.now)) (D.faults store.old) (D.faults store.new)) }
    ensures uncut { D.tells store.old ≡ true → OnErr result (IsUncut
        (bytes_in (D.file store.old name.now)) (bytes_in (D.file store.new name.now)) reading) }
    ensures any_moment { D.tells store.old ≡ true
        → LeavesOpening D.file D.solid D.moment D.left_since name.now reading store.old store.new }
    ensures others { D.tells store.old ≡ true
        → KeepsOthers D.file D.solid D.moment D.left_since name.now store.old store.new }

    ensures known { OnOk result (D.known store.new name.now ≡ true) }
    ensures stays { (other : List ℕ) → D.known store.old other ≡ true
        → D.known store.new other ≡ true }
    ensures told { D.tells store.new ≡ D.tells store.old }
    ensures later { D.faults store.old ≤ D.faults store.new }
    ensures steady { OnOk result (D.faults store.new ≡ D.faults store.old) }
{
    let Ok((text, opening)) = new_opening(alloc, name, reading) else {
        return Err(LogError::Memory);
    };
    match append_solid(alloc, store, name, text.as_str().as_bytes()) {
        Ok(()) => Ok(opening),
        Err(error) => Err(LogError::from(error)),
    }
}

// The text of a log that is begun at a reading, and what it begins with.
fn new_opening(alloc: Global, name: &str, reading: u64) -> Result<(String, Opening), LogError>
    ensures named { IfOk result (λ r. r.1.name ≡ name.now) }
    ensures text { IfOk result (λ r. string_bytes r.0 ≡ new_log_text reading) }
    ensures begun { IfOk result (λ r. IsBegun reading r.1) }
{
    let new = match new_log(alloc, reading) {
        Ok(new) => new,
        Err(error) => return Err(error),
    };
    let (text, list, queue) = new.into_parts();
    match opening_of(alloc, name, 1, list, queue) {
        Ok(opening) => Ok((text, opening)),
        Err(error) => Err(error),
    }
}

fn opening_of(
    alloc: Global,
    name: &str,
    sequence: u64,
    list: TxList,
    queue: Queue,
) -> Result<Opening, LogError>
    requires { IsLogged list queue }
    ensures opening { IfOk result (λ opening. (opening.name ≡ name.now)
        × (opening.sequence ≡ sequence) × (opening.logged.list ≡ list)
        × (opening.logged.queue ≡ queue)) }
    ensures refused { IfErr result (IsTooMany list) }
{
    let name = Text::from_str(alloc, name)?;
    let logged = Logged::new(alloc, list, queue)?;
    Ok(Opening {
        name,
        sequence,
        logged,
    })
}
