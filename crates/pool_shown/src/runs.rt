// The runs of slots.

ghost use Rattle.std.specs.Prelude.{◌≡◌};
ghost use Rattle.startd_slot.specs.SlotStates.{runs_on};
ghost use Rattle.pool_shown.specs.Slots.{first_left_of, has_end, has_run_of, is_end_of, left_run};

use claim_id::RunNo;
use pool_mail::Ending;
use receipt_roll::Receipt;
use startd_slot::Slot;

/// Whether one of the slots has the run.
pub(crate) fn has_run_of(slots: &[Slot], run: RunNo) -> bool
    ensures { result ≡ has_run_of run slots.now }
{
    slots.iter().any(|slot| has_run_here(slot, run))
}

fn has_run_here(slot: &Slot, run: RunNo) -> bool
    ensures { result ≡ runs_on slot.now.state run }
{
    slot.state.runs(run)
}

/// The first run of the slots of whose end no receipt is.
pub(crate) fn first_left(slots: &[Slot], ended: &[Receipt<Ending>]) -> Option<RunNo>
    ensures { result ≡ first_left_of ended.now slots.now }
{
    for slot in slots {
        if let Some(run) = left_run(slot, ended) {
            return Some(run);
        }
    }
    None
}

// The slot's run, where no receipt is of its end.
fn left_run(slot: &Slot, ended: &[Receipt<Ending>]) -> Option<RunNo>
    ensures { result ≡ left_run ended.now slot.now }
{
    let running = slot.state.running()?;
    let run = running.run;
    if has_end(ended, run) { None } else { Some(run) }
}

fn has_end(ended: &[Receipt<Ending>], run: RunNo) -> bool
    ensures { result ≡ has_end run ended.now }
{
    ended.iter().any(|receipt| is_end_of(receipt, run))
}

fn is_end_of(receipt: &Receipt<Ending>, run: RunNo) -> bool
    ensures { result ≡ is_end_of run receipt.now }
{
    receipt.item().run == run
}
