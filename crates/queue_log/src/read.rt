// Reading a log's file.

ghost use Rattle.std.specs.Prelude.{◌≡◌, ◌≤◌, ◌<◌, ◌^◌, ℕ, List, true, Some, None, length, take, drop, IfOk, IfErr, OnOk};
ghost use Rattle.std.specs.Option.{option_map};
ghost use Rattle.pool_outer.specs.Files.{bytes_in};
ghost use Rattle.queue_record.specs.ReadSoFar.{start, fed};
ghost use Rattle.pool_store.specs.Moments.{KeepsFile};
ghost use Rattle.queue_log.specs.Files.{IsReadOf, IsReadRefusal, IsSound, MeetsBadLine};
ghost use Rattle.queue_log.specs.Logged.{IsLogged};
ghost use Rattle.queue_log.specs.Others.{KeepsOthers};
ghost use Rattle.queue_log.specs.Stands.{bad_line};

use crate::error::LogError;
use pool_outer::Store;
use queue_record::{ReadLog, Reader};
use std::alloc::{AllocError, Global};

/// How many bytes are asked for at once.
const PIECE: usize = 65_536;

// What the bytes of a file of that size stand for, once all of it is solid.
pub(crate) fn read_log<D: Store>(
    alloc: Global,
    store: &mut D,
    name: &str,
    size: u64,
) -> Result<ReadLog, LogError>
    requires known { D.known store.old name.now ≡ true }
    requires size { D.tells store.old ≡ true
        → option_map length (D.file store.old name.now) ≡ Some size }

    // What is read.
    ensures logged { IfOk result (λ log. IsLogged log.list log.queue) }
    ensures read { D.tells store.old ≡ true
        → IfOk result (IsReadOf (bytes_in (D.file store.old name.now))) }
    ensures refused { IfErr result (IsReadRefusal (λ line. D.tells store.old ≡ true
        → bad_line (bytes_in (D.file store.old name.now)) ≡ Some line)
        (D.faults store.old) (D.faults store.new)) }

    // The file.
    ensures keeps { D.tells store.old ≡ true
        → KeepsFile D.file D.solid D.moment D.left_since name.now store.old store.new }
    ensures others { D.tells store.old ≡ true
        → KeepsOthers D.file D.solid D.moment D.left_since name.now store.old store.new }
    ensures solid { D.tells store.old ≡ true → OnOk result (size ≤ D.solid store.new name.now) }
    ensures small { D.tells store.old ≡ true
        → OnOk result (length (bytes_in (D.file store.old name.now)) < 2 ^ 64) }

    // The names, what the store tells, and its faults.
    ensures known { (other : List ℕ) → D.known store.old other ≡ true
        → D.known store.new other ≡ true }
    ensures told { D.tells store.new ≡ D.tells store.old }
    ensures later { D.faults store.old ≤ D.faults store.new }
    ensures steady { OnOk result (D.faults store.new ≡ D.faults store.old) }
{
    if let Err(error) = store.sync(alloc, name) {
        return Err(LogError::from(error));
    }
    let mut reader = Reader::new(alloc);
    match read_pieces(alloc, store, name, size, &mut reader) {
        Ok(()) => Ok(reader.end()),
        Err(error) => Err(error),
    }
}

// Reads a file up to that size.
fn read_pieces<D: Store>(
    alloc: Global,
    store: &mut D,
    name: &str,
    size: u64,
    reader: &mut Reader,
) -> Result<(), LogError>
    requires known { D.known store.old name.now ≡ true }
    requires size { D.tells store.old ≡ true
        → option_map length (D.file store.old name.now) ≡ Some size }
    requires new { reader.old ≡ start }

    ensures sound { OnOk result (IsSound reader.new) }
    ensures good { OnOk result (reader.new.refusal ≡ None) }
    ensures read { D.tells store.old ≡ true → OnOk result
        (reader.new ≡ fed start (bytes_in (D.file store.old name.now))) }
    ensures refused { IfErr result (IsReadRefusal (λ line. D.tells store.old ≡ true
        → bad_line (bytes_in (D.file store.old name.now)) ≡ Some line)
        (D.faults store.old) (D.faults store.new)) }

    ensures keeps { D.tells store.old ≡ true
        → KeepsFile D.file D.solid D.moment D.left_since name.now store.old store.new }
    ensures others { D.tells store.old ≡ true
        → KeepsOthers D.file D.solid D.moment D.left_since name.now store.old store.new }
    ensures known { (other : List ℕ) → D.known store.old other ≡ true
        → D.known store.new other ≡ true }
    ensures told { D.tells store.new ≡ D.tells store.old }
    ensures later { D.faults store.old ≤ D.faults store.new }
    ensures steady { OnOk result (D.faults store.new ≡ D.faults store.old) }
{
    let Ok(mut piece) = zeros(alloc, PIECE) else {
        return Err(LogError::Memory);
    };
    let mut place = 0;
    'pieces: while place < size {
        let count = match read_piece(alloc, store, name, place, &mut piece, reader) {
            Ok(count) => count,
            Err(error) => return Err(error),
        };
        if count == 0 {
            return Ok(());
        }
        place = place.saturating_add(count);
    }
    Ok(())
}

fn zeros(alloc: Global, count: usize) -> Result<Vec<u8>, AllocError>
    ensures { IfOk result (λ bytes. length bytes.items ≡ count) }
{
    vec![in alloc; 0; count]
}

// Reads on from a place, and says how many bytes.
fn read_piece<D: Store>(
    alloc: Global,
    store: &mut D,
    name: &str,
    place: u64,
    piece: &mut [u8],
    reader: &mut Reader,
) -> Result<u64, LogError>
    requires known { D.known store.old name.now ≡ true }
    requires good { reader.old.refusal ≡ None }
    requires room { 0 < length piece.old }

    ensures good { OnOk result (reader.new.refusal ≡ None) }
    ensures read { IfOk result (λ n. reader.new ≡ fed reader.old (take n piece.new)) }
    ensures piece { D.tells store.old ≡ true → IfOk result (λ n. take n piece.new
        ≡ take n (drop place (bytes_in (D.file store.old name.now)))) }
    ensures fits { D.tells store.old ≡ true → IfOk result
        (λ n. n ≤ length (drop place (bytes_in (D.file store.old name.now)))) }
    ensures goes_on { D.tells store.old ≡ true → IfOk result
        (λ n. place < length (bytes_in (D.file store.old name.now)) → 0 < n) }
    ensures refused { IfErr result (IsReadRefusal (λ line. D.tells store.old ≡ true
        → MeetsBadLine reader.old (bytes_in (D.file store.old name.now)) place line)
        (D.faults store.old) (D.faults store.new)) }

    ensures keeps { D.tells store.old ≡ true
        → KeepsFile D.file D.solid D.moment D.left_since name.now store.old store.new }
    ensures others { D.tells store.old ≡ true
        → KeepsOthers D.file D.solid D.moment D.left_since name.now store.old store.new }
    ensures known { (other : List ℕ) → D.known store.old other ≡ true
        → D.known store.new other ≡ true }
    ensures told { D.tells store.new ≡ D.tells store.old }
    ensures later { D.faults store.old ≤ D.faults store.new }
    ensures steady { OnOk result (D.faults store.new ≡ D.faults store.old) }
{
    let count = match store.read_at(alloc, name, place, piece) {
        Ok(count) => count,
        Err(error) => return Err(LogError::from(error)),
    };
    match reader.feed(&piece[..count]) {
        Ok(()) => Ok(count as u64),
        Err(error) => Err(LogError::from(error)),
    }
}
