// The numbers of runs, at the opening of a pool.

ghost use Rattle.std.specs.Prelude.{◌≡◌};
ghost use Rattle.schedd_state.specs.Reopening.{first_run, run_from};

use queue_tx::{Key, NEXT_RUN_NUM, Queue};
use schedd_plan::natural_at;

/// The last number that a run may have at the opening of a pool.
pub const LAST_RUN_NUMBER: u64 = 4_611_686_018_427_387_904;

/// The number of the run that is granted first, by the header's ad.
pub(crate) fn first_run(queue: &Queue) -> u64
    ensures { result ≡ first_run queue.now }
{
    match queue.get(&Key::Header) {
        Some(ad) => run_from(natural_at(ad, NEXT_RUN_NUM)),
        None => 1,
    }
}

fn run_from(number: Option<u64>) -> u64
    ensures { result ≡ run_from number }
{
    match number {
        Some(number) if 0 < number && number <= LAST_RUN_NUMBER => number,
        _ => 1,
    }
}
