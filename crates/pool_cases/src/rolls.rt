// The rolls by whose receipts events come.

ghost use Rattle.std.specs.Prelude.{◌≡◌, IfOk, IfSome, Some, length, map, slice_get};
ghost use Rattle.pool_cases.specs.Marks.{IsMarked, mark_of};

use ad_value::{Copied, Memory};
use cases::CaseError;
use pool_mail::Ending;
use queue_tx::Tx;
use receipt_roll::{Mark, Receipt, Roll, RollError};
use std::alloc::Global;
use std::marker::Model;

/// A roll of transactions with the receipts that were not handed in, and a roll of ends of runs for
/// each machine. Contracts see their marks.
pub(crate) struct Rolls {
    log: Roll<Tx>,
    receipts: Vec<Option<Receipt<Tx>>>,
    ends: Vec<Roll<Ending>>,
}

impl Drop for Rolls {
    fn drop(self) {
        let Rolls {
            log: _log,
            receipts: _receipts,
            ends: _ends,
        } = self;
    }
}

impl Model for Rolls {
    ghost use Rattle.std.specs.Prelude.{map};
    ghost use Rattle.pool_cases.specs.Marks.{AreMarked, RollMarks, mark_of};

    ghost Value = { RollMarks };

    ghost view = { λ r. record { log = r.log.mark; ends = map mark_of r.ends.items } };

    ghost invariant = { λ r. AreMarked r.log.mark r.receipts.items };
}

impl Rolls {
    /// A roll with so many transactions that do nothing, and a roll for each of so many machines.
    /// Computes in O(transactions + machines).
    pub(crate) fn new(alloc: Global, count: u64, machines: usize) -> Result<Rolls, CaseError> {
        let mut rolls = Rolls {
            log: Roll::new(alloc),
            receipts: Vec::new(alloc),
            ends: Vec::new(alloc),
        };
        rolls.fill(alloc, count, machines)?;
        Ok(rolls)
    }

    fn fill(&mut self, alloc: Global, count: u64, machines: usize) -> Result<(), CaseError> {
        for _ in 0..count {
            self.put(Tx::new(alloc), Tx::new(alloc))?;
        }
        for _ in 0..machines {
            self.ends.push(Roll::new(alloc))?;
        }
        Ok(())
    }

    /// How many transactions there are. Computes in O(1).
    pub(crate) fn len(&self) -> u64 {
        self.log.len()
    }

    /// How many machines there are. Computes in O(1).
    pub(crate) fn machines(&self) -> usize
        ensures { result ≡ length self.now.ends }
    {
        self.ends.len()
    }

    fn put(&mut self, tx: Tx, copy: Tx) -> Result<(), CaseError>
        requires { tx ≡ copy }
        ensures { self.new ≡ self.old }
    {
        match self.log.append(tx, copy) {
            Ok(receipt) => {
                self.receipts.push(Some(receipt))?;
                Ok(())
            }
            Err(RollError::Full | RollError::Memory) => Err(CaseError::Memory),
        }
    }

    /// Puts a transaction on the roll. Computes in O(size of the transaction).
    pub(crate) fn add(&mut self, alloc: Global, tx: &Tx) -> Result<(), CaseError>
        ensures { self.new ≡ self.old }
    {
        match (tx.copy(alloc), tx.copy(alloc)) {
            (Ok(tx), Ok(copy)) => self.put(tx, copy),
            _ => Err(CaseError::Memory),
        }
    }

    /// The receipt of that number, which is to be put back; none where there is no such. Computes
    /// in O(1).
    pub(crate) fn take(&mut self, number: u64) -> Option<Receipt<Tx>>
        ensures marks { self.new ≡ self.old }
        ensures receipt { IfSome result (IsMarked self.old.log) }
    {
        let place = self.receipts.get_mut(number as usize)?;
        place.take()
    }

    /// Puts a receipt back that was taken. Computes in O(1).
    pub(crate) fn put_back(&mut self, receipt: Option<Receipt<Tx>>)
        requires { IfSome receipt (IsMarked self.old.log) }
        ensures { self.new ≡ self.old }
    {
        if let Some(receipt) = receipt {
            let place = receipt.number() as usize;
            if let Some(kept) = self.receipts.get_mut(place) {
                *kept = Some(receipt);
            }
        }
    }

    /// Puts an end of a run on a machine's roll; none where there is no such machine. Computes in
    /// O(1) on average.
    pub(crate) fn end(
        &mut self,
        machine: u16,
        ending: Ending,
    ) -> Result<Option<Receipt<Ending>>, Memory>
        ensures marks { self.new ≡ self.old }
        ensures receipt { IfOk result (λ r. IfSome r
            (λ receipt. slice_get self.old.ends machine ≡ Some receipt.mark)) }
    {
        let Some(roll) = self.ends.get_mut(usize::from(machine)) else {
            return Ok(None);
        };
        let receipt = end_on(roll, ending)?;
        Ok(Some(receipt))
    }

    /// The mark of the roll of transactions. Computes in O(1).
    pub(crate) fn log_mark(&self) -> Mark<Tx>
        ensures { result ≡ self.now.log }
    {
        self.log.mark()
    }

    /// The marks of the rolls of ends of runs, by machine. Computes in O(machines).
    pub(crate) fn end_marks(&self, alloc: Global) -> Result<Vec<Mark<Ending>>, Memory>
        ensures { IfOk result (λ marks. marks.items ≡ self.now.ends) }
    {
        marks_of(alloc, self.ends.as_slice())
    }
}

// Puts an end of a run on a roll.
fn end_on(roll: &mut Roll<Ending>, ending: Ending) -> Result<Receipt<Ending>, Memory>
    ensures mark { roll.new.mark ≡ roll.old.mark }
    ensures receipt { IfOk result (λ receipt. receipt.mark ≡ roll.old.mark) }
{
    match roll.append(ending, ending) {
        Ok(receipt) => Ok(receipt),
        Err(RollError::Full | RollError::Memory) => Err(Memory),
    }
}

fn marks_of(alloc: Global, rolls: &[Roll<Ending>]) -> Result<Vec<Mark<Ending>>, Memory>
    ensures { IfOk result (λ marks. marks.items ≡ map mark_of rolls.now) }
{
    let mut marks = Vec::new(alloc);
    for roll in rolls {
        marks.push(roll.mark())?;
    }
    Ok(marks)
}
