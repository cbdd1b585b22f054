// The abstract pool that a pool stands for.

ghost use Rattle.std.specs.Prelude.{◌≡◌, ℕ, IfOk, List, Option};
ghost use Rattle.claim_id.specs.declared.numbers.ClaimId.{ClaimId};
ghost use Rattle.schedd_state.specs.Reopening.{IsReader};
ghost use Rattle.pool_state.specs.PoolViews.{IsViewOf};

use crate::state::PoolState;
use ad_value::{Memory, Seq};
use pool_shown::{ShownSlots, shown_jobs, shown_slots};
use pool_view::{EndReportList, JobIdList, View};
use std::alloc::Global;
use std::collections::LinkedList;

// The items of a list, in order.
fn copied_list<T: Copy>(alloc: Global, list: &LinkedList<T, Global>) -> Result<Seq<T>, Memory>
    ensures { IfOk result (λ copied. copied ≡ list.now) }
{
    let mut copied = Seq::new(alloc);
    for item in list {
        copied.push(*item)?;
    }
    Ok(copied)
}

impl PoolState {
    /// The abstract pool that the pool stands for. Computes in O(jobs * (log jobs + log jobs left)
    /// + slots + reports), and O(attributes) for each job; the other ads share their attributes.
    pub fn view(&self, alloc: Global) -> Result<View, Memory>
        ensures { IfOk result (λ view. (read : List ℕ → Option ClaimId) → IsReader read
            → IsViewOf read self.now view) }
    {
        let (acked, ordered, reports) = self.said_of_jobs(alloc)?;
        let ShownSlots { runs, marks, ads } = shown_slots(
            alloc,
            &self.daemons,
            self.machines.as_slice(),
        )?;
        let jobs = shown_jobs(alloc, &self.queue, self.schedd.left(), &self.finished)?;
        Ok(View {
            moment: self.latest,
            next: self.schedd.next_run(),
            jobs,
            acked,
            ordered,
            runs,
            marks,
            reports,
            slots: ads,
        })
    }

    // The jobs that were acknowledged, those that were ordered to be removed, and how runs ended.
    fn said_of_jobs(&self, alloc: Global) -> Result<(JobIdList, JobIdList, EndReportList), Memory>
        ensures { IfOk result
            (λ said. said ≡ (self.now.acked, self.now.ordered, self.now.reports)) }
    {
        let acked = copied_list(alloc, &self.acked)?;
        let ordered = copied_list(alloc, &self.ordered)?;
        let reports = copied_list(alloc, &self.reports)?;
        Ok((acked, ordered, reports))
    }
}
