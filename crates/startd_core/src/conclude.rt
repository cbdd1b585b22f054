// What a reaction comes to.

ghost use Rattle.std.specs.Prelude.{◌≡◌, IfOk};
ghost use Rattle.startd_core.specs.Offers.{settled, pair_place, same_pair, same_offer, has_changed, has_entered, is_brief};
ghost use Rattle.startd_core.specs.Startds.{told_where_changed, made_by, answer_of};
ghost use Rattle.startd_core.specs.Tellings.{told_state, told_mails};

use crate::answer::{Permit, RunList, StartdAnswer};
use crate::offers::{Machine, settle_offer, update_of};
use ad_value::Memory;
use claim_id::{ClaimId, Pair};
use pool_mail::MailList;
use startd_slot::{Reaction, Slot, SlotState, Task};
use std::alloc::Global;

/// How a slot stands after an event, how many claims its machine has offered then, and the mails
/// that are sent.
pub(crate) struct Conclusion {
    pub state: SlotState,
    pub offers: u64,
    pub mails: MailList,
}

impl Drop for Conclusion {
    fn drop(self) {
        let Conclusion {
            state: _state,
            offers: _,
            mails: _mails,
        } = self;
    }
}

impl Conclusion {
    pub(crate) fn into_parts(self) -> (SlotState, u64, MailList)
        ensures { result ≡ (self.state, self.offers, self.mails) }
    {
        let Conclusion {
            state,
            offers,
            mails,
        } = self;
        (state, offers, mails)
    }

    /// The slot becomes what the event made of it, with its offer and its Update.
    fn settle(
        &mut self,
        alloc: Global,
        machine: Machine,
        slot: &Slot,
        reading: u64,
    ) -> Result<(), Memory>
        ensures { IfOk result (λ _. self.new ≡ told_where_changed slot.now
            (settled machine slot.now.id self.old.state self.old.offers) self.old.mails reading) }
    {
        self.offers = settle_offer(machine, slot.id, &mut self.state, self.offers)?;
        let tells = has_changed(&slot.state, &self.state);
        tell(
            alloc,
            slot,
            &mut self.state,
            &mut self.mails,
            tells,
            reading,
        )?;
        Ok(())
    }
}

/// What a slot's reaction comes to, and what is to be done.
pub(crate) struct Made {
    pub conclusion: Conclusion,
    pub answer: StartdAnswer,
}

/// What a slot's reaction comes to.
#[tactic(auto, unfolding(crate::specs::Startds::made_by))]
pub(crate) fn made_by(
    alloc: Global,
    machine: Machine,
    offers: u64,
    slot: &Slot,
    reaction: Reaction,
    reading: u64,
) -> Result<Made, Memory>
    ensures { IfOk result (λ made. made ≡ made_by machine offers slot.now reaction reading) }
{
    let Reaction { state, mails, task } = reaction;
    let mut conclusion = Conclusion {
        state,
        offers,
        mails,
    };
    conclusion.settle(alloc, machine, slot, reading)?;
    let answer = answer_of(alloc, task)?;
    Ok(Made { conclusion, answer })
}

/// With an Update of the slot, where it tells how it stands.
pub(crate) fn tell(
    alloc: Global,
    slot: &Slot,
    state: &mut SlotState,
    mails: &mut MailList,
    tells: bool,
    reading: u64,
) -> Result<(), Memory>
    ensures state { IfOk result (λ _. state.new ≡ told_state tells reading state.old) }
    ensures mails { IfOk result (λ _. mails.new
        ≡ told_mails tells slot.now state.old reading mails.old) }
{
    if !tells {
        return Ok(());
    }
    state.told = Some(reading);
    let update = update_of(alloc, slot, state, reading)?;
    mails.push(update)?;
    Ok(())
}

fn pair_place(pair: Pair) -> u8
    ensures { result ≡ pair_place pair }
{
    match pair {
        Pair::OwnerIdle => 0,
        Pair::UnclaimedIdle => 1,
        Pair::MatchedIdle => 2,
        Pair::ClaimedIdle => 3,
        Pair::ClaimedBusy => 4,
        Pair::ClaimedRetiring => 5,
        Pair::PreemptingVacating => 6,
        Pair::PreemptingKilling => 7,
    }
}

fn is_same_pair(a: Pair, b: Pair) -> bool
    ensures { result ≡ same_pair a b }
{
    pair_place(a) == pair_place(b)
}

fn is_same_offer(a: Option<ClaimId>, b: Option<ClaimId>) -> bool
    ensures { result ≡ same_offer a b }
{
    match (a, b) {
        (None, None) => true,
        (Some(a), Some(b)) => a == b,
        (None, Some(_)) => false,
        (Some(_), None) => false,
    }
}

/// Whether what others are told of a slot differs.
pub(crate) fn has_changed(old: &SlotState, new: &SlotState) -> bool
    ensures { result ≡ has_changed old.now new.now }
{
    !is_same_pair(old.pair, new.pair) || !is_same_offer(old.offer, new.offer)
}

fn is_brief(pair: Pair) -> bool
    ensures { result ≡ is_brief pair }
{
    match pair {
        Pair::OwnerIdle | Pair::ClaimedRetiring | Pair::PreemptingVacating => true,
        _ => false,
    }
}

/// Whether the slot has entered a pair that the next tick looks at.
pub(crate) fn has_entered(old: &SlotState, new: &SlotState) -> bool
    ensures { result ≡ has_entered old.now new.now }
{
    !is_same_pair(old.pair, new.pair) && is_brief(new.pair)
}

/// What the machine is to do.
pub(crate) fn answer_of(alloc: Global, task: Task) -> Result<StartdAnswer, Memory>
    ensures { IfOk result (λ answer. answer ≡ answer_of task) }
{
    match task {
        Task::Nothing => Ok(StartdAnswer::Done),
        Task::Launch { run, job, what } => Ok(StartdAnswer::Launch {
            permit: Permit::new(run, job, what),
        }),
        Task::Kill { run } => {
            let mut runs = RunList::new(alloc);
            runs.push(run)?;
            Ok(StartdAnswer::Kill { runs })
        }
    }
}
