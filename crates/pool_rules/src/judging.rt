// Whether what was judged is what there is.

ghost use Rattle.std.specs.Prelude.{◌≡◌, ◌↔◌, ◌∷◌, [], IfSome, IsSomeAnd, IsTrue, MatchOption, Some, option_map, slice_get, true};
ghost use Rattle.std.specs.Option.{option_copied};
ghost use Rattle.ad_eval.specs.Judgement.{IsJudgementOf, IsMismatchOf};
ghost use Rattle.pool_shown.specs.Slots.{slot_at};
ghost use Rattle.pool_mail.specs.Ads.{request_ad};
ghost use Rattle.pool_rules.specs.Judging.{IsFair, IsFairOf, IsLive, IsSomeLive, is_judged_at, is_offered, judged_in, nothing_given, offers_in};
ghost use Rattle.pool_rules.specs.Refusals.{IsAdRefusal, IsAdRefusalBy, stray_refusal};
ghost use Rattle.queue_tx.specs.declared.key.Key.TheVariants.{Proc};
ghost use Rattle.queue_tx.specs.declared.kind.JobKind.TheVariants.{Idle};
ghost use Rattle.queue_tx.specs.Kinds.{kind_of};
ghost use Rattle.queue_tx.specs.Queues.{ad_at};
ghost use Rattle.startd_slot.specs.SlotStates.{is_claim};

use ad_eval::{Judged, NoMatch};
use ad_tree::Ad;
use claim_id::{ClaimId, JobId, SlotId};
use pool_mail::{Mail, Match};
use pool_outer::Daemon;
use pool_parts::is_request_of;
use pool_state::PoolState;
use pool_tables::{Sent, StepError};
use queue_tx::{JobKind, Key, kind_of};

/// The first slot of any pool.
pub(crate) const FIRST_SLOT: SlotId = SlotId {
    machine: 0,
    slot: 1,
};

// The ad of a mail that is judged, and the slot with whose ad it is.
fn judged_in(mail: &Mail) -> Option<(&Ad, SlotId)>
    ensures { option_map (λ x. (x.0.now, x.1)) result ≡ judged_in mail.now }
{
    match mail {
        Mail::Ask { claim, ad, .. } => Some((ad, claim.no.slot)),
        Mail::Activate { run, ad, .. } => Some((ad, run.claim.slot)),
        _ => None,
    }
}

fn is_nothing_given(judged: Option<&Judged>, none: Option<&NoMatch>) -> bool
    ensures { result ≡ nothing_given (option_copied judged.entry) (option_copied none.entry) }
{
    !(judged.is_some() || none.is_some())
}

// Whether a match is of these two ads at that reading.
fn is_of(judged: &Judged, ad: &Ad, slot: &Ad, reading: u64) -> bool
    ensures { IsTrue result ↔ IsJudgementOf ad.now slot.now reading judged.now }
{
    judged.job().same(ad) && judged.slot().same(slot) && judged.at() == reading
}

fn is_alone(list: &[Ad], ad: &Ad) -> bool
    ensures { IsTrue result ↔ (list.now ≡ ad.now ∷ []) }
{
    match list {
        [only] => only.same(ad),
        _ => false,
    }
}

// Whether a mismatch is of these two ads alone at that reading.
fn is_none_of(none: &NoMatch, ad: &Ad, slot: &Ad, reading: u64) -> bool
    ensures { IsTrue result ↔ IsMismatchOf (ad.now ∷ []) (slot.now ∷ []) reading none.now }
{
    is_alone(none.jobs().as_slice(), ad)
        && is_alone(none.slots().as_slice(), slot)
        && none.at() == reading
}

fn is_judged_fairly(judged: Option<&Judged>, ad: &Ad, slot: &Ad, reading: u64) -> bool
    ensures { IsTrue result
        ↔ IfSome (option_copied judged.entry) (IsJudgementOf ad.now slot.now reading) }
{
    match judged {
        Some(judged) => is_of(judged, ad, slot, reading),
        None => true,
    }
}

fn is_none_fairly(none: Option<&NoMatch>, ad: &Ad, slot: &Ad, reading: u64) -> bool
    ensures { IsTrue result ↔ IfSome (option_copied none.entry)
        (IsMismatchOf (ad.now ∷ []) (slot.now ∷ []) reading) }
{
    match none {
        Some(none) => is_none_of(none, ad, slot, reading),
        None => true,
    }
}

fn stray_refusal(nothing: bool) -> Option<StepError>
    ensures { result ≡ stray_refusal nothing }
{
    if nothing {
        None
    } else {
        Some(StepError::AdMoved { slot: FIRST_SLOT })
    }
}

/// Why what was judged with a mail isn't what there is.
pub(crate) fn ad_refusal(
    state: &PoolState,
    sent: Option<&Sent>,
    reading: u64,
    judged: Option<&Judged>,
    none: Option<&NoMatch>,
) -> Option<StepError>
    ensures { IsAdRefusal (option_copied sent.entry) state.now reading
        (option_copied judged.entry) (option_copied none.entry) result }
{
    let sent = sent?;
    mail_ad_refusal(state, &sent.mail, reading, judged, none)
}

fn mail_ad_refusal(
    state: &PoolState,
    mail: &Mail,
    reading: u64,
    judged: Option<&Judged>,
    none: Option<&NoMatch>,
) -> Option<StepError>
    ensures { IsAdRefusalBy (judged_in mail.now) state.now mail.now reading
        (option_copied judged.entry) (option_copied none.entry) result }
{
    match judged_in(mail) {
        Some((ad, slot)) => {
            if is_fair(state, mail, ad, slot, reading, judged, none) {
                None
            } else {
                Some(StepError::AdMoved { slot })
            }
        }
        None => stray_refusal(is_nothing_given(judged, none)),
    }
}

// Whether what was judged is of the mail's ad, the slot's and the reading, and something was
// where it is asked for.
fn is_fair(
    state: &PoolState,
    mail: &Mail,
    ad: &Ad,
    slot: SlotId,
    reading: u64,
    judged: Option<&Judged>,
    none: Option<&NoMatch>,
) -> bool
    ensures { IsTrue result ↔ IsFairOf state.now mail.now ad.now slot reading
        (option_copied judged.entry) (option_copied none.entry) }
{
    if is_judged_at(state, slot.machine, mail, reading) && is_nothing_given(judged, none) {
        return false;
    }
    is_fair_at(state, slot, ad, reading, judged, none)
}

fn is_fair_at(
    state: &PoolState,
    slot: SlotId,
    ad: &Ad,
    reading: u64,
    judged: Option<&Judged>,
    none: Option<&NoMatch>,
) -> bool
    ensures { IsTrue result ↔ MatchOption (slot_at slot state.now.machines)
        (nothing_given (option_copied judged.entry) (option_copied none.entry) ≡ true)
        (λ sl. IsFair ad.now sl.ad reading
        (option_copied judged.entry) (option_copied none.entry)) }
{
    match state.machines.slot(slot) {
        Some(slot) => {
            is_judged_fairly(judged, ad, &slot.ad, reading)
                && is_none_fairly(none, ad, &slot.ad, reading)
        }
        None => is_nothing_given(judged, none),
    }
}

fn is_judged_at(state: &PoolState, machine: u16, mail: &Mail, reading: u64) -> bool
    ensures { result ≡ is_judged_at (slice_get state.now.machines machine) mail.now reading }
{
    match state.machines.get(machine) {
        Some(startd) => startd.judges(mail, reading).is_some(),
        None => false,
    }
}

// ---- matches

// Whether a slot whose startd is up offers the claim.
fn is_offered(state: &PoolState, claim: ClaimId) -> bool
    ensures { result ≡ is_offered claim state.now }
{
    state.daemons.is_up(Daemon::Startd(claim.no.slot.machine)) && is_offered_there(state, claim)
}

fn is_offered_there(state: &PoolState, claim: ClaimId) -> bool
    ensures { result ≡ offers_in (slot_at claim.no.slot state.now.machines) claim }
{
    match state.machines.slot(claim.no.slot) {
        Some(slot) => is_offer(slot.state.offer, claim),
        None => false,
    }
}

fn is_slots(state: &PoolState, ad: &Ad, slot: SlotId) -> bool
    ensures { IsTrue result
        ↔ IsSomeAnd (slot_at slot state.now.machines) (λ sl. ad.now ≡ sl.ad) }
{
    match state.machines.slot(slot) {
        Some(slot) => ad.same(&slot.ad),
        None => false,
    }
}

fn is_asked_by(state: &PoolState, ad: &Ad, job: JobId) -> bool
    ensures { IsTrue result ↔ IsSomeAnd (ad_at (Proc job) state.now.queue)
        (λ own. (kind_of own ≡ Some Idle) × (ad.now ≡ request_ad own)) }
{
    match state.queue.get(&Key::Proc(job)) {
        Some(own) => is_idle(own) && is_request_of(ad, own),
        None => false,
    }
}

/// Whether a match is live: its job waits and no claim engages it, a slot whose startd is up
/// offers its claim, and the two were judged by the ads that they have, at this reading.
/// Computes in O(log jobs + claims + size of the ads).
pub fn is_live(state: &PoolState, found: &Match, judged: &Judged, reading: u64) -> bool
    ensures { IsTrue result ↔ IsLive state.now found.now judged.now reading }
{
    is_asked_by(state, judged.job(), found.job)
        && !state.is_engaged(found.job)
        && is_offered(state, found.claim)
        && is_slots(state, judged.slot(), found.claim.no.slot)
        && judged.at() == reading
}

/// Whether some match is live. Computes as `is_live`, for each match up to the first that is.
pub(crate) fn is_some_live(
    state: &PoolState,
    list: &[Match],
    judged: &[Judged],
    reading: u64,
) -> bool
    ensures { IsTrue result ↔ IsSomeLive state.now list.now judged.now reading }
{
    let mut left = judged;
    for found in list {
        match left.split_first() {
            Some((first, rest)) => {
                if is_live(state, found, first, reading) {
                    return true;
                }
                left = rest;
            }
            None => return false,
        }
    }
    false
}

fn is_offer(offer: Option<ClaimId>, claim: ClaimId) -> bool
    ensures { result ≡ is_claim offer claim }
{
    match offer {
        Some(offer) => offer == claim,
        None => false,
    }
}

fn is_idle(ad: &Ad) -> bool
    ensures { IsTrue result ↔ (kind_of ad.now ≡ Some Idle) }
{
    match kind_of(ad) {
        Some(JobKind::Idle) => true,
        _ => false,
    }
}
