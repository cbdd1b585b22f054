// What a slot offers, and what is told of it.

ghost use Rattle.std.specs.Prelude.{◌≡◌, IfOk, OnErr};
ghost use Rattle.startd_core.specs.Offers.{settled, user_in, rank_in, update_of};

use crate::secret::secret_of;
use ad_tree::Ad;
use ad_value::{Copied, Memory, Text};
use claim_id::{ClaimId, ClaimNo, SlotId};
use pool_mail::{Mail, SlotAd};
use startd_slot::{Slot, SlotState, is_open};
use std::alloc::Global;

/// What all slots of a machine go by in one boot.
#[derive(Clone, Copy)]
pub(crate) struct Machine {
    pub number: u16,
    pub boot: u64,
    pub secret_key: u64,
}

/// The slot's offer once its pair is settled: none in a pair in which nothing is offered; else the
/// one that it has, or a new one with the next seq and the secret of the machine's next offer.
/// Gives how many offers the machine has then made, of which there were `offers`. Memory too where
/// a count is at its end. After an error the slot is as it was.
pub(crate) fn settle_offer(
    machine: Machine,
    slot: SlotId,
    state: &mut SlotState,
    offers: u64,
) -> Result<u64, Memory>
    ensures state { IfOk result (λ _. state.new ≡ (settled machine slot state.old offers).state) }
    ensures offers { IfOk result (λ n. n ≡ (settled machine slot state.old offers).offers) }
    ensures kept { OnErr result (state.new ≡ state.old) }
{
    if !is_open(state.pair) {
        state.offer = None;
        return Ok(offers);
    }
    if state.offer.is_some() {
        return Ok(offers);
    }
    let (Some(seq), Some(next)) = (state.issued.checked_add(1), offers.checked_add(1)) else {
        return Err(Memory);
    };
    let no = ClaimNo {
        slot,
        boot: machine.boot,
        seq,
    };
    let secret = secret_of(machine.secret_key, machine.number, offers);
    state.issued = seq;
    state.offer = Some(ClaimId { no, secret });
    Ok(next)
}

/// How the slot stands, as its startd tells it.
pub(crate) fn update_of(
    alloc: Global,
    slot: &Slot,
    state: &SlotState,
    reading: u64,
) -> Result<Mail, Memory>
    ensures { IfOk result (λ mail. mail ≡ update_of slot.now state.now reading) }
{
    let user = user_of(alloc, state)?;
    let (name, ad) = copy_label(alloc, slot)?;
    Ok(Mail::Update(SlotAd {
        slot: slot.id,
        name,
        claim: state.offer,
        pair: state.pair,
        user,
        rank: rank_of(state),
        at: reading,
        ad,
    }))
}

/// Copies of a slot's name and ad.
pub(crate) fn copy_label(alloc: Global, slot: &Slot) -> Result<(Text, Ad), Memory>
    ensures { IfOk result (λ label. label ≡ (slot.now.name, slot.now.ad)) }
{
    let name = slot.name.copy(alloc)?;
    let ad = slot.ad.copy(alloc)?;
    Ok((name, ad))
}

fn user_of(alloc: Global, state: &SlotState) -> Result<Option<Text>, Memory>
    ensures { IfOk result (λ user. user ≡ user_in state.now.held) }
{
    match &state.held {
        Some(held) => Ok(Some(held.user.copy(alloc)?)),
        None => Ok(None),
    }
}

fn rank_of(state: &SlotState) -> i64
    ensures { result ≡ rank_in state.now.held }
{
    match &state.held {
        Some(held) => held.rank,
        None => 0,
    }
}
