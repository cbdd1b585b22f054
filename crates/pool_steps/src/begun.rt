// A transaction that is to be logged.

ghost use Rattle.std.specs.Prelude.{◌≡◌, IfOk, Some};
ghost use Rattle.pool_rules.specs.Answers.{answered, pending_tx};
ghost use Rattle.pool_parts.specs.declared.answer.Answer.TheVariants as answer;

use ad_value::{Copied, Memory};
use pool_parts::{Answer, Kept, Pending, Stepped, Unfinished};
use queue_tx::Tx;
use std::alloc::Global;
use std::marker::Model;

/// A transaction that is to be logged, and what is answered of it, with all their memory. Contracts
/// see the `Pending`.
pub struct Begun {
    pending: Pending,
    answered: Tx,
    kept: Tx,
}

impl Drop for Begun {
    fn drop(self) {
        let Begun {
            pending: _pending,
            answered: _answered,
            kept: _kept,
        } = self;
    }
}

impl Model for Begun {
    ghost use Rattle.std.specs.Coded.{codes};
    ghost use Rattle.std.specs.Prelude.{◌≡◌};
    ghost use Rattle.pool_parts.specs.contracts.pending.Pending as of_pending;
    ghost use Rattle.pool_parts.specs.declared.pending.Pending.{Pending};

    ghost Value = { Pending };

    ghost coded = { Prim.hlevel (codes, of_pending.the_row.coded) };

    ghost view = { λ b. b.pending };

    ghost invariant = { λ b. (b.answered ≡ b.pending.tx) × (b.kept ≡ b.pending.tx) };
}

impl Begun {
    /// A transaction of that number is to be logged. Computes in O(size of the transaction).
    pub fn new(alloc: Global, number: u64, tx: Tx, what: Unfinished) -> Result<Begun, Memory>
        ensures { IfOk result (λ b. b ≡ pending_tx number tx what) }
    {
        let answered = tx.copy(alloc)?;
        let kept = tx.copy(alloc)?;
        Ok(Begun {
            pending: Pending { number, tx, what },
            answered,
            kept,
        })
    }

    /// It is the unfinished one. Computes in O(1), without memory.
    pub fn put(self, pending: &mut Option<Pending>) -> Stepped
        ensures pending { pending.new ≡ Some self }
        ensures answer { result ≡ answered (answer.Append self.number self.tx) }
    {
        let Begun {
            pending: begun,
            answered,
            kept,
        } = self;
        let number = begun.number;
        *pending = Some(begun);
        Stepped {
            answer: Answer::Append {
                number,
                tx: answered,
            },
            kept: Kept::Append { number, tx: kept },
        }
    }
}

/// Nothing is asked for. Computes in O(1).
pub fn nothing_asked() -> Stepped
    ensures { result ≡ answered answer.Done }
{
    Stepped {
        answer: Answer::Done,
        kept: Kept::Done,
    }
}
