ghost use Rattle.std.specs.Prelude.{◌≡◌, ◌+◌, ◌-◌, ◌++◌, ◌∷◌, [], take, OnOk, MatchOption};
ghost use Rattle.ad_value.specs.Bytes.{code};
ghost use Rattle.queue_tx.specs.Operations.{operation};
ghost use Rattle.queue_tx.specs.Queues.{queue_after};
ghost use Rattle.queue_record.specs.Entries.{begins, ends, does, stamped, entry};
ghost use Rattle.queue_record.specs.ReadSoFar.{start, refused, refusal_of, counted, takes_in, after_entry, after_line, with_bytes, kept_all, counted_all, fed, Gives, HasNoNewline};

use crate::entry::{LogEntry, MAX_LINE, entry_of};
use crate::error::RecordError;
use memchr::memchr;
use queue_tx::{ApplyError, Op, Queue, Tx, TxList};
use std::alloc::{AllocError, Global};
use std::marker::Model;

/// What the bytes of a log stand for.
#[derive(Drop)]
pub struct ReadLog {
    /// The transactions that have their end, and the single operations, each as a transaction of
    /// its own, in order.
    pub list: TxList,
    /// The queue that they build.
    pub queue: Queue,
    /// How many bytes the log has up to the end of its last whole transaction or single line. What
    /// stands behind them says nothing, and is to be cut before the log is appended to.
    pub whole: u64,
    /// The sequence of the last line `107`; 0 where there is none.
    pub sequence: u64,
}

/// A reader of a log, whose bytes are fed in pieces. It keeps the line that is not at its end, of
/// which no more than one byte past the limit, the transaction that is open, the queue so far, and
/// the list of transactions.
#[derive(Drop)]
pub struct Reader {
    alloc: Global,
    list: TxList,
    queue: Queue,
    /// The operations of the transaction that is open.
    opened: Option<Tx>,
    /// The line on which it begins.
    begun: u64,
    /// The line that is not at its end, by its number and its bytes.
    line: u64,
    part: Vec<u8>,
    size: u64,
    whole: u64,
    sequence: u64,
    refusal: Option<RecordError>,
}

impl Model for Reader {
    ghost use Rattle.queue_record.specs.ReadSoFar.{ReadSoFar};
    ghost use Rattle.queue_record.specs.ReadSoFarCode.{read_so_far_code};

    ghost Value = { ReadSoFar };

    ghost coded = { read_so_far_code };

    ghost view = { λ r. record {
      list = r.list;
      queue = r.queue;
      opened = r.opened;
      begun = r.begun;
      line = r.line;
      part = r.part.items;
      size = r.size;
      whole = r.whole;
      sequence = r.sequence;
      refusal = r.refusal;
    } };
}

impl Reader {
    /// A reader of a log of which nothing was fed yet, without memory. Computes in O(1).
    pub fn new(alloc: Global) -> Reader
        ensures { result ≡ start }
    {
        Reader {
            alloc,
            list: TxList::new(alloc),
            queue: Queue::new(),
            opened: None,
            begun: 0,
            line: 1,
            part: Vec::new(alloc),
            size: 0,
            whole: 0,
            sequence: 0,
            refusal: None,
        }
    }

    /// Goes on with the next bytes of the log. After an error the same error is given again, and
    /// nothing is left of what was read. Computes in O(bytes), and in the time of the operations of
    /// each transaction that ends in the piece.
    pub fn feed(&mut self, piece: &[u8]) -> Result<(), RecordError>
        ensures fed { self.old.refusal ≡ None → Gives result self.new (fed self.old piece.now) }
        ensures again { (e : RecordError) → self.old.refusal ≡ Some e
            → (result ≡ Err e) × (self.new ≡ self.old) }
    {
        match self.refusal {
            Some(error) => Err(error),
            None => self.go_on_with(piece),
        }
    }

    // Goes on with the next bytes.
    fn go_on_with(&mut self, piece: &[u8]) -> Result<(), RecordError>
        requires { self.old.refusal ≡ None }
        ensures { Gives result self.new (fed self.old piece.now) }
    {
        let mut rest = piece;
        while let Some((text, after)) = line_before(rest) {
            if let Err(error) = self.read_line(text) {
                return Err(error);
            }
            rest = after;
        }
        self.add(rest)
    }

    // Goes on with the rest of a line, and past its newline.
    fn read_line(&mut self, text: &[u8]) -> Result<(), RecordError>
        requires { self.old.refusal ≡ None }
        ensures { Gives result self.new (after_line (with_bytes self.old text.now)) }
    {
        self.add(text)?;
        self.end_line()
    }

    /// What the bytes that were fed stand for; nothing after an error. Computes in O(1), without
    /// memory.
    pub fn end(self) -> ReadLog
        ensures list { result.list ≡ self.list }
        ensures queue { result.queue ≡ self.queue }
        ensures whole { result.whole ≡ self.whole }
        ensures sequence { result.sequence ≡ self.sequence }
    {
        let Reader {
            list,
            queue,
            whole,
            sequence,
            ..
        } = self;
        ReadLog {
            list,
            queue,
            whole,
            sequence,
        }
    }

    // Goes on with bytes of the line that is not at its end.
    fn add(&mut self, bytes: &[u8]) -> Result<(), RecordError>
        requires { self.old.refusal ≡ None }
        ensures { Gives result self.new (with_bytes self.old bytes.now) }
    {
        match keep(&mut self.part, bytes) {
            Ok(()) => {
                self.size = counted_all(self.size, bytes);
                Ok(())
            }
            Err(_) => Err(self.refuse(RecordError::Memory)),
        }
    }

    // Goes on past the newline of the line.
    fn end_line(&mut self) -> Result<(), RecordError>
        requires { self.old.refusal ≡ None }
        ensures { Gives result self.new (after_line self.old) }
    {
        if self.part.as_slice().len() > MAX_LINE {
            return Err(self.refuse(RecordError::TooLong { line: self.line }));
        }
        match entry_of(self.alloc, &self.part) {
            Ok(Some(entry)) => self.enter(entry),
            Ok(None) => Err(self.refuse_line()),
            Err(_) => Err(self.refuse(RecordError::Memory)),
        }
    }

    fn enter(&mut self, said: LogEntry) -> Result<(), RecordError>
        requires { self.old.refusal ≡ None }
        ensures { Gives result self.new
            (after_entry self.old self.old.opened (Some (entry said))) }
    {
        match said {
            LogEntry::Begin => self.begin(),
            LogEntry::End => self.close(),
            LogEntry::Operation(op) => self.operate(op),
            LogEntry::Stamp { sequence } => self.stamp(sequence),
        }
    }

    fn begin(&mut self) -> Result<(), RecordError>
        requires { self.old.refusal ≡ None }
        ensures { Gives result self.new (after_entry self.old self.old.opened (Some begins)) }
    {
        if self.opened.is_some() {
            return Err(self.refuse_line());
        }
        self.opened = Some(Tx::new(self.alloc));
        self.begun = self.line;
        self.go_on();
        Ok(())
    }

    fn stamp(&mut self, sequence: u64) -> Result<(), RecordError>
        requires { self.old.refusal ≡ None }
        ensures { Gives result self.new
            (after_entry self.old self.old.opened (Some (stamped sequence))) }
    {
        if self.opened.is_some() {
            return Err(self.refuse_line());
        }
        self.begun = 0;
        self.sequence = sequence;
        self.go_on();
        self.whole = self.size;
        Ok(())
    }

    fn close(&mut self) -> Result<(), RecordError>
        requires { self.old.refusal ≡ None }
        ensures { Gives result self.new (after_entry self.old self.old.opened (Some ends)) }
    {
        match self.opened.take() {
            Some(tx) => self.take_in(tx, self.begun.saturating_add(1)),
            None => Err(self.refuse_line()),
        }
    }

    fn operate(&mut self, op: Op) -> Result<(), RecordError>
        requires { self.old.refusal ≡ None }
        ensures { Gives result self.new
            (after_entry self.old self.old.opened (Some (does (operation op)))) }
    {
        let Some(tx) = &mut self.opened else {
            return self.operate_alone(op);
        };
        if tx.push(op).is_err() {
            return Err(self.refuse(RecordError::Memory));
        }
        self.go_on();
        Ok(())
    }

    fn operate_alone(&mut self, op: Op) -> Result<(), RecordError>
        requires refusal { self.old.refusal ≡ None }
        requires opened { self.old.opened ≡ None }
        ensures { Gives result self.new
            (after_entry self.old None (Some (does (operation op)))) }
    {
        let mut tx = Tx::new(self.alloc);
        if tx.push(op).is_err() {
            return Err(self.refuse(RecordError::Memory));
        }
        self.take_in(tx, self.line)
    }

    // Takes in a transaction that has its end, whose first operation stands on a line.
    fn take_in(&mut self, tx: Tx, first: u64) -> Result<(), RecordError>
        requires { self.old.refusal ≡ None }
        ensures { Gives result self.new
            (takes_in self.old tx first (queue_after self.old.queue tx)) }
    {
        if let Err(error) = self.queue.apply(self.alloc, &tx) {
            return Err(self.refuse(refusal_of(error, first)));
        }
        if self.list.push(tx).is_err() {
            return Err(self.refuse(RecordError::Memory));
        }
        self.opened = None;
        self.begun = 0;
        self.go_on();
        self.whole = self.size;
        Ok(())
    }

    // Goes on with the next line.
    fn go_on(&mut self)
        ensures { self.new ≡ record self.old {
          line = counted self.old.line 1;
          part = [];
          size = counted self.old.size 1;
        } }
    {
        self.line = self.line.saturating_add(1);
        self.part.clear();
        self.size = self.size.saturating_add(1);
    }

    // Refuses the line that is at its end.
    fn refuse_line(&mut self) -> RecordError
        ensures error { result ≡ RecordError.BadRecord self.old.line }
        ensures refused { self.new ≡ refused result }
    {
        self.refuse(RecordError::BadRecord { line: self.line })
    }

    // Keeps nothing of what was read but the error.
    fn refuse(&mut self, error: RecordError) -> RecordError
        ensures error { result ≡ error }
        ensures refused { self.new ≡ refused error }
    {
        self.list = TxList::new(self.alloc);
        self.queue = Queue::new();
        self.opened = None;
        self.begun = 0;
        self.line = 0;
        self.part.clear();
        self.size = 0;
        self.whole = 0;
        self.sequence = 0;
        self.refusal = Some(error);
        error
    }
}

// Keeps bytes of a line, up to one past the limit.
fn keep(part: &mut Vec<u8>, bytes: &[u8]) -> Result<(), AllocError>
    ensures { OnOk result (part.new.items ≡ kept_all part.old.items bytes.now) }
{
    part.extend_from_slice(kept_bytes(part.as_slice().len(), bytes))
}

// The bytes that are kept behind so many of a line.
fn kept_bytes(length: usize, bytes: &[u8]) -> &[u8]
    ensures { result.now ≡ take (MAX_LINE + 1 - length) bytes.now }
{
    let room = (MAX_LINE + 1).saturating_sub(length);
    if bytes.len() <= room {
        bytes
    } else {
        &bytes[..room]
    }
}

// A count with that of bytes.
fn counted_all(count: u64, bytes: &[u8]) -> u64
    ensures { result ≡ counted_all count bytes.now }
{
    count.saturating_add(bytes.len() as u64)
}

// The first line of bytes, without its newline, and the bytes after it; none where there is no
// newline.
fn line_before(bytes: &[u8]) -> Option<(&[u8], &[u8])>
    ensures { MatchOption result (HasNoNewline bytes.now) (λ p. HasNoNewline p.0.now
        × (bytes.now ≡ p.0.now ++ code "\n" ∷ p.1.now)) }
{
    let end = memchr(b'\n', bytes)?;
    Some((&bytes[..end], &bytes[end + 1..]))
}

// Why the line of an operation is refused that can't be done, where the first of its transaction
// stands on a line.
fn refusal_of(error: ApplyError, first: u64) -> RecordError
    ensures { result ≡ refusal_of first error }
{
    match error {
        ApplyError::NoKey { op } => bad_record(first, op),
        ApplyError::KeyThere { op } => bad_record(first, op),
        ApplyError::Full { op } => bad_record(first, op),
        ApplyError::Memory => RecordError::Memory,
    }
}

fn bad_record(first: u64, op: u64) -> RecordError
    ensures { result ≡ RecordError.BadRecord (counted first op) }
{
    RecordError::BadRecord {
        line: first.saturating_add(op),
    }
}
