// How slots stand.

ghost use Rattle.std.specs.Prelude.{◌≡◌, ◌++◌, IfOk, map};
ghost use Rattle.startd_core.specs.Offers.{rank_in, user_in};
ghost use Rattle.pool_shown.specs.Slots.{all_slots, told_at};

use ad_value::{Copied, Memory, Text};
use pool_mail::{SlotAd, SlotAdList};
use startd_core::Startd;
use startd_slot::{Slot, SlotState};
use std::alloc::Global;

/// How all slots stand, told at a reading.
pub(crate) fn told_slots(alloc: Global, startds: &[Startd], at: u64) -> Result<SlotAdList, Memory>
    ensures { IfOk result (λ told. told ≡ map (told_at at) (all_slots startds.now)) }
{
    let mut told = SlotAdList::new(alloc);
    for startd in startds {
        push_slots(alloc, &mut told, startd.slots(), at)?;
    }
    Ok(told)
}

fn push_slots(alloc: Global, told: &mut SlotAdList, slots: &[Slot], at: u64) -> Result<(), Memory>
    ensures { IfOk result (λ _. told.new ≡ told.old ++ map (told_at at) slots.now) }
{
    for slot in slots {
        let now = told_slot(alloc, slot, at)?;
        told.push(now)?;
    }
    Ok(())
}

fn told_slot(alloc: Global, slot: &Slot, at: u64) -> Result<SlotAd, Memory>
    ensures { IfOk result (λ told. told ≡ told_at at slot.now) }
{
    let user = user_of(alloc, &slot.state)?;
    Ok(SlotAd {
        slot: slot.id,
        name: slot.name.copy(alloc)?,
        claim: slot.state.offer,
        pair: slot.state.pair,
        user,
        rank: rank_of(&slot.state),
        at,
        ad: slot.ad.copy(alloc)?,
    })
}

fn user_of(alloc: Global, state: &SlotState) -> Result<Option<Text>, Memory>
    ensures { IfOk result (λ user. user ≡ user_in state.now.held) }
{
    match &state.held {
        Some(held) => Ok(Some(held.user.copy(alloc)?)),
        None => Ok(None),
    }
}

fn rank_of(state: &SlotState) -> i64
    ensures { result ≡ rank_in state.now.held }
{
    match &state.held {
        Some(held) => held.rank,
        None => 0,
    }
}
