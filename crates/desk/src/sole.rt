ghost use Rattle.std.specs.Prelude.{◌≡◌};
ghost use Rattle.desk.specs.Answers.{IsBootHere, IsCheckHere, IsDueHere, IsMailHere, IsNextHere, IsRefusedHere};
ghost use Rattle.pool_shown.specs.Slots.{slot_at};
ghost use Rattle.pool_parts.specs.Clusters.{IsNextCluster};
ghost use Rattle.desk.specs.Standing.{end_mark_of, logged_before};
ghost use Rattle.pool_state.specs.Readings.{AreWanted, IsLook, ad_of_slot};

use crate::Desk;
use crate::pass::SolePass;
use ad_tree::Ad;
use ad_value::Memory;
use claim_id::{JobId, SlotId};
use pool_mail::{Mail, RequestList};
use pool_outer::Daemon;
use pool_parts::{Answer, Event, Look};
use pool_tables::{MailError, StepError};
use std::alloc::Global;

/// A desk with one holder. Nobody else gives events to its pool, so what it tells of the pool is
/// so.
#[derive(Clone, Copy)]
pub struct SoleDesk;

impl Desk for SoleDesk {
    type Pass = SolePass;

    ghost holder = { λ p. p.holder };

    ghost mine = { λ p. p.mine };

    ghost first = { λ p. logged_before p.mine p.pool };

    ghost queue = { λ p. p.pool.queue };

    ghost log_mark = { λ p. p.pool.log_mark };

    ghost end_mark = { λ p. end_mark_of p.holder p.pool };

    ghost closed = { λ p. p.closed };

    ghost gave = { λ _ _. Unit {0} };

    ghost gave_refusal = { λ _ p event error. IsRefusedHere p.pool event error };

    ghost gave_mail = { λ _ p who index answer. IsMailHere who index p.pool answer };

    ghost gave_next = { λ _ p who from answer. IsNextHere who from p.pool answer };

    ghost gave_due = { λ _ p who reading answer. IsDueHere who reading p.pool answer };

    ghost gave_check = { λ _ p reading answer. IsCheckHere reading p.pool answer };

    ghost gave_boot = { λ _ p who answer. IsBootHere who p.pool answer };

    ghost gave_cluster = { λ _ p answer. IsNextCluster p.pool.queue p.pool.finished answer };

    ghost gave_wants = { λ _ p answer. AreWanted p.pool answer };

    ghost gave_look = { λ _ p answer. IsLook p.pool answer };

    ghost gave_slot_ad = { λ _ p slot answer.
        answer ≡ ad_of_slot (slot_at slot p.pool.machines) };

    fn act(&self, alloc: Global, pass: &mut SolePass, event: Event) -> Result<Answer, StepError> {
        pass.act(alloc, event)
    }

    fn mail(
        &self,
        alloc: Global,
        pass: &SolePass,
        who: Daemon,
        index: u64,
    ) -> Result<Mail, MailError> {
        pass.pool().mail(alloc, who, index)
    }

    fn next(&self, pass: &SolePass, who: Daemon, from: u64) -> Option<u64> {
        pass.pool().next(who, from)
    }

    fn due(&self, alloc: Global, pass: &SolePass, who: Daemon, reading: u64) -> bool {
        pass.pool().due(alloc, who, reading)
    }

    fn first_check(&self, pass: &SolePass, reading: u64) -> Option<JobId> {
        pass.pool().first_check(reading)
    }

    fn boot(&self, pass: &SolePass, who: Daemon) -> u64 {
        pass.pool().boot(who)
    }

    fn cluster(&self, pass: &SolePass) -> u32 {
        pass.pool().cluster()
    }

    fn wants(&self, alloc: Global, pass: &SolePass) -> Result<RequestList, Memory> {
        pass.pool().wants(alloc)
    }

    fn look(&self, alloc: Global, pass: &SolePass) -> Result<Look, Memory> {
        pass.pool().look(alloc)
    }

    fn slot_ad(&self, alloc: Global, pass: &SolePass, slot: SlotId) -> Result<Option<Ad>, Memory> {
        pass.pool().slot_ad(alloc, slot)
    }
}
