// What is refused by the unfinished transaction.

ghost use Rattle.std.specs.Prelude.{◌≡◌};
ghost use Rattle.std.specs.Option.{option_copied};
ghost use Rattle.pool_parts.specs.Receipts.{IsItemRefusal, IsKeptRefusal, IsReceiptRefusal, still_pending};

use crate::pending::Pending;
use crate::same::is_same_tx;
use pool_tables::StepError;
use queue_tx::Tx;
use receipt_roll::Receipt;

/// Why the schedd begins no transaction: one is unfinished. Computes in O(1).
pub fn still_pending(pending: Option<&Pending>) -> Option<StepError>
    ensures { result ≡ still_pending (option_copied pending.entry) }
{
    match pending {
        Some(pending) => Some(StepError::StillPending {
            number: pending.number,
        }),
        None => None,
    }
}

/// Why a receipt isn't that of the unfinished transaction: none is unfinished, it has another
/// number, or another transaction has its number. Computes in O(size of the transaction).
pub fn receipt_refusal(pending: Option<&Pending>, receipt: &Receipt<Tx>) -> Option<StepError>
    ensures { IsReceiptRefusal (option_copied pending.entry) receipt.now result }
{
    let asked = receipt.number();
    match pending {
        Some(pending) => {
            if pending.number == asked {
                item_refusal(asked, receipt.item(), &pending.tx)
            } else {
                Some(StepError::NotPending {
                    asked,
                    current: Some(pending.number),
                })
            }
        }
        None => Some(StepError::NotPending {
            asked,
            current: None,
        }),
    }
}

fn item_refusal(number: u64, item: &Tx, tx: &Tx) -> Option<StepError>
    ensures { IsItemRefusal number item.now tx.now result }
{
    if is_same_tx(item, tx) {
        None
    } else {
        Some(StepError::OtherItem { number })
    }
}

/// Why the schedd doesn't come back with that receipt of its unfinished transaction; without one it
/// does. Computes in O(size of the transaction).
pub fn kept_refusal(pending: Option<&Pending>, kept: Option<&Receipt<Tx>>) -> Option<StepError>
    ensures { IsKeptRefusal (option_copied pending.entry) (option_copied kept.entry) result }
{
    match kept {
        Some(receipt) => receipt_refusal(pending, receipt),
        None => None,
    }
}
