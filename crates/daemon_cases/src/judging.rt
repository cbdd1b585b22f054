ghost use Rattle.std.specs.Prelude.{◌≡◌, ◌<◌};

use ad_eval::{Judged, Steps, judge};
use ad_tree::Ad;
use ad_value::Memory;
use std::alloc::Global;
use std::marker::Brand;
use std::sync::ledger::{Blank, Ledger};

/// The match of a job and a slot at a reading. Its step is counted for itself.
pub(crate) fn judge_pair(
    alloc: Global,
    job: &Ad,
    slot: &Ad,
    reading: u64,
) -> Result<Option<Judged>, Memory> {
    judge_counted::<Brand>(alloc, job, slot, reading, Blank::new(1))
}

fn judge_counted<L: Ledger>(
    alloc: Global,
    job: &Ad,
    slot: &Ad,
    reading: u64,
    blank: Blank,
) -> Result<Option<Judged>, Memory>
    requires name { blank.name ≡ L.name }
    requires parts { blank.parts ≡ L.parts }
    requires some { 0 < blank.parts }
{
    let mut steps = Steps::<L>::new(blank);
    judge(alloc, job, slot, reading, &mut steps)
}
