//! What holds of all lines, and of all logs.

ghost use Rattle.std.specs.Prelude.{◌≡◌, ◌<◌, ◌↔◌, ◌++◌, ℕ, List, Some, None, Ok, false, length, take};
ghost use Rattle.std.specs.Str.{IsUtf8};
ghost use Rattle.queue_tx.specs.Operations.{Operation};
ghost use Rattle.queue_tx.specs.Printable.{IsPrintable, IsPrintableOp};
ghost use Rattle.queue_tx.specs.Queues.{KeyedAds, queue_after};
ghost use Rattle.queue_record.specs.declared.error.RecordError.{RecordError};
ghost use Rattle.queue_record.specs.Entries.{Entry, does, entry_at};
ghost use Rattle.queue_record.specs.Records.{IsShort, Record};
ghost use Rattle.queue_record.specs.ReadSoFar.{HasNoNewline, ReadSoFar, fed, start};
ghost use Rattle.queue_record.specs.Logs.{IsAtRest, IsBadLog, Settles, StandsFor, Stays};
ghost use Rattle.queue_record.specs.Texts.{AreTexts, first_long, is_long, op_line, tx_text};

/// What is read of a line is what it says.
pub fn lines_are_read()
    ensures { (line : List ℕ) (e : Entry) → (entry_at line ≡ Some e) ↔ Record line e }
{}

/// What is written of an operation is one line, which says that operation.
pub fn printed_lines_are_read()
    ensures one { (o : Operation) → IsPrintableOp o → is_long o ≡ false
        → HasNoNewline (op_line o) × IsShort (op_line o) }
    ensures read { (o : Operation) → IsPrintableOp o → is_long o ≡ false
        → IsUtf8 (op_line o) → Record (op_line o) (does o) }
{}

/// The text of a transaction whose parts are printable, behind whole lines, is read as that
/// transaction.
pub fn printed_transactions_are_read()
    ensures { (r : ReadSoFar) (os : List Operation) (q : KeyedAds)
        → IsPrintable os → first_long os ≡ None → AreTexts os
        → IsAtRest r → queue_after r.queue os ≡ Ok q
        → Settles r (fed r (tx_text os)) os q }
{}

/// Each beginning of that text, whatever a stop leaves of it, changes nothing that counts.
pub fn torn_transactions_say_nothing()
    ensures { (r : ReadSoFar) (os : List Operation) (count : ℕ)
        → IsPrintable os → first_long os ≡ None → AreTexts os
        → IsAtRest r → count < length (tx_text os)
        → Stays r (fed r (take count (tx_text os))) }
{}

/// Bytes that are fed in pieces are read as when they are fed at once.
pub fn pieces_are_one()
    ensures { (r : ReadSoFar) (piece more : List ℕ)
        → fed (fed r piece) more ≡ fed r (piece ++ more) }
{}

/// What was read of the bytes of a log is what they stand for, and a refusal is that of the first
/// bad line.
pub fn readings_are_of_lines()
    ensures stands { (bytes : List ℕ) → (fed start bytes).refusal ≡ None
        → StandsFor bytes (fed start bytes).list (fed start bytes).queue
        (fed start bytes).whole (fed start bytes).sequence }
    ensures bad { (bytes : List ℕ) (e : RecordError)
        → (fed start bytes).refusal ≡ Some e → IsBadLog bytes e }
{}
