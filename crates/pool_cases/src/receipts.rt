// The events that hand in receipts.

ghost use Rattle.std.specs.Prelude.{◌≡◌, IfOk, IfSome, OnOk, Some, slice_get};
ghost use Rattle.pool_cases.specs.Marks.{HasMarks, IsGivenBy, IsMarked};
ghost use Rattle.pool_rules.specs.Given.{AreOfDaemon, AreOfMachine};
ghost use Rattle.pool_state.specs.declared.state.PoolState.{PoolState};

use crate::rolls::Rolls;
use ad_value::Memory;
use cases::CaseError;
use daemon_texts::Fields;
use pool_mail::Ending;
use pool_outer::Daemon;
use pool_parts::{EndingReceipts, Event};
use queue_record::{LogEntry, RecordError, read_line};
use queue_tx::Tx;
use receipt_roll::Receipt;
use std::alloc::Global;

/// `logged BOOT NUMBER`, or `logged BOOT NUMBER TX`
pub(crate) fn read_logged(
    alloc: Global,
    fields: &mut Fields<'_>,
    rolls: &mut Rolls,
    unfinished: &Tx,
) -> Result<Event, CaseError>
    ensures marks { rolls.new ≡ rolls.old }
    ensures given { IfOk result (IsGivenBy rolls.old) }
{
    let boot = fields.natural()?;
    let number = fields.natural()?;
    if fields.left() > 0 {
        add_written(alloc, fields, rolls)?;
    }
    let receipt = receipt_of(alloc, fields, rolls, unfinished, number)?;
    Ok(Event::Logged { boot, receipt })
}

// A transaction that is written out is put on the roll.
fn add_written(alloc: Global, fields: &mut Fields<'_>, rolls: &mut Rolls) -> Result<(), CaseError>
    ensures { rolls.new ≡ rolls.old }
{
    let bytes = fields.bytes(alloc)?;
    match tx_of(alloc, &bytes) {
        Ok(tx) => rolls.add(alloc, &tx),
        Err(RecordError::Memory) => Err(CaseError::Memory),
        Err(_) => Err(fields.form()),
    }
}

// The operations of lines.
fn tx_of(alloc: Global, bytes: &[u8]) -> Result<Tx, RecordError> {
    let mut tx = Tx::new(alloc);
    add_lines(alloc, &mut tx, bytes)?;
    Ok(tx)
}

fn add_lines(alloc: Global, tx: &mut Tx, bytes: &[u8]) -> Result<(), RecordError> {
    for line in bytes.split(|byte| *byte == b'\n') {
        if !line.is_empty() {
            add_line(alloc, tx, line)?;
        }
    }
    Ok(())
}

fn add_line(alloc: Global, tx: &mut Tx, line: &[u8]) -> Result<(), RecordError> {
    match read_line(alloc, line, 1)? {
        LogEntry::Operation(op) => match tx.push(op) {
            Ok(()) => Ok(()),
            Err(Memory) => Err(RecordError::Memory),
        },
        _ => Ok(()),
    }
}

// The receipt of that number. The unfinished transaction is first put on the roll where it has it.
fn receipt_of(
    alloc: Global,
    fields: &Fields<'_>,
    rolls: &mut Rolls,
    unfinished: &Tx,
    number: u64,
) -> Result<Receipt<Tx>, CaseError>
    ensures marks { rolls.new ≡ rolls.old }
    ensures receipt { IfOk result (IsMarked rolls.old.log) }
{
    if number == rolls.len() {
        rolls.add(alloc, unfinished)?;
    }
    match rolls.take(number) {
        Some(receipt) => Ok(receipt),
        None => Err(fields.form()),
    }
}

/// `reopen DAEMON KEPT READING RUN END ..`
pub(crate) fn read_reopen(
    alloc: Global,
    fields: &mut Fields<'_>,
    rolls: &mut Rolls,
    unfinished: &Tx,
) -> Result<Event, CaseError>
    ensures marks { rolls.new ≡ rolls.old }
    ensures given { IfOk result (IsGivenBy rolls.old) }
{
    let who = fields.daemon()?;
    let number = fields.maybe_natural()?;
    let reading = fields.natural()?;
    let kept = kept_of(alloc, fields, rolls, unfinished, number)?;
    let ended = read_ends(alloc, fields, rolls, who)?;
    Ok(Event::Reopen {
        who,
        kept,
        ended,
        reading,
    })
}

fn kept_of(
    alloc: Global,
    fields: &Fields<'_>,
    rolls: &mut Rolls,
    unfinished: &Tx,
    number: Option<u64>,
) -> Result<Option<Receipt<Tx>>, CaseError>
    ensures marks { rolls.new ≡ rolls.old }
    ensures receipt { IfOk result (λ r. IfSome r (IsMarked rolls.old.log)) }
{
    match number {
        Some(number) => Ok(Some(receipt_of(alloc, fields, rolls, unfinished, number)?)),
        None => Ok(None),
    }
}

// A daemon without programs ends none.
fn read_ends(
    alloc: Global,
    fields: &mut Fields<'_>,
    rolls: &mut Rolls,
    who: Daemon,
) -> Result<EndingReceipts, CaseError>
    ensures marks { rolls.new ≡ rolls.old }
    ensures ends { IfOk result (λ ended. (s : PoolState) → HasMarks rolls.old s
        → AreOfDaemon who s ended) }
{
    match who {
        Daemon::Startd(machine) => ends_of(alloc, fields, rolls, machine),
        Daemon::Schedd => Ok(EndingReceipts::new(alloc)),
        Daemon::Matchmaker => Ok(EndingReceipts::new(alloc)),
    }
}

fn ends_of(
    alloc: Global,
    fields: &mut Fields<'_>,
    rolls: &mut Rolls,
    machine: u16,
) -> Result<EndingReceipts, CaseError>
    ensures marks { rolls.new ≡ rolls.old }
    ensures ends { IfOk result (λ ended. (s : PoolState) → HasMarks rolls.old s
        → AreOfMachine machine s ended) }
{
    let mut ended = EndingReceipts::new(alloc);
    add_ends(alloc, fields, rolls, machine, &mut ended)?;
    Ok(ended)
}

fn add_ends(
    alloc: Global,
    fields: &mut Fields<'_>,
    rolls: &mut Rolls,
    machine: u16,
    ended: &mut EndingReceipts,
) -> Result<(), CaseError>
    ensures marks { rolls.new ≡ rolls.old }
    ensures ends { OnOk result ((s : PoolState) → HasMarks rolls.old s
        → AreOfMachine machine s ended.old → AreOfMachine machine s ended.new) }
{
    for _ in 0..fields.left() / 2 {
        add_end(alloc, fields, rolls, machine, ended)?;
    }
    Ok(())
}

fn add_end(
    alloc: Global,
    fields: &mut Fields<'_>,
    rolls: &mut Rolls,
    machine: u16,
    ended: &mut EndingReceipts,
) -> Result<(), CaseError>
    ensures marks { rolls.new ≡ rolls.old }
    ensures ends { OnOk result ((s : PoolState) → HasMarks rolls.old s
        → AreOfMachine machine s ended.old → AreOfMachine machine s ended.new) }
{
    let ending = fields.ending(alloc)?;
    let receipt = end_of(fields, rolls, machine, ending)?;
    match ended.push(receipt) {
        Ok(()) => Ok(()),
        Err(Memory) => Err(CaseError::Memory),
    }
}

// The end of a run, put on the machine's roll.
fn end_of(
    fields: &Fields<'_>,
    rolls: &mut Rolls,
    machine: u16,
    ending: Ending,
) -> Result<Receipt<Ending>, CaseError>
    ensures marks { rolls.new ≡ rolls.old }
    ensures receipt { IfOk result
        (λ receipt. slice_get rolls.old.ends machine ≡ Some receipt.mark) }
{
    match rolls.end(machine, ending) {
        Ok(Some(receipt)) => Ok(receipt),
        Ok(None) => Err(fields.form()),
        Err(Memory) => Err(CaseError::Memory),
    }
}

/// `ended MACHINE BOOT RUN END READING`
pub(crate) fn read_ended(
    alloc: Global,
    fields: &mut Fields<'_>,
    rolls: &mut Rolls,
) -> Result<Event, CaseError>
    ensures marks { rolls.new ≡ rolls.old }
    ensures given { IfOk result (IsGivenBy rolls.old) }
{
    let machine = fields.short()?;
    let boot = fields.natural()?;
    let ending = fields.ending(alloc)?;
    let reading = fields.natural()?;
    let receipt = end_of(fields, rolls, machine, ending)?;
    Ok(Event::Ended {
        machine,
        boot,
        receipt,
        reading,
    })
}
