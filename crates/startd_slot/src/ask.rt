// A claim is matched, asked for and given up.

ghost use Rattle.std.specs.Prelude.{◌≡◌, IfOk};
ghost use Rattle.std.specs.Option.{option_copied};
ghost use Rattle.pool_mail.specs.declared.mail.Mail.TheVariants as mail;
ghost use Rattle.startd_slot.specs.AskTable.{ask_row, is_rank_too_low, contested_row, ask_denied, granted_to, with_rival, after_ask_row, after_ask, after_matched, is_unclaimed};
ghost use Rattle.startd_slot.specs.Reactions.{becomes};
ghost use Rattle.startd_slot.specs.ReleaseTable.{release_row, held_row, after_release_row, after_release};

use crate::held::{Rival, Running};
use crate::reaction::Reaction;
use crate::slot::{Slot, SlotState, is_busy};
use ad_eval::rank;
use ad_tree::Ad;
use ad_value::{Memory, Text};
use claim_id::{ClaimId, ClaimNo, Cue, JobId, Pair};
use pool_mail::{Mail, Why, owner_of};
use std::alloc::Global;

/// What an Ask says, but for its ad.
#[derive(Clone, Copy)]
pub(crate) struct Asked {
    pub claim: ClaimId,
    pub job: JobId,
    pub by_priority: bool,
}

/// What becomes of an Ask.
#[derive(Clone, Copy)]
pub(crate) enum AskRow {
    NotOffered,
    NotMatched,
    Granted,
    RankTooLow { old: i64, new: i64 },
    HandedOver,
    MadeRival,
}

fn ask_row(state: &SlotState, asked: Asked, matched: bool, rank: i64) -> AskRow
    ensures { result ≡ ask_row state.now asked matched rank }
{
    if !state.offers(asked.claim) {
        return AskRow::NotOffered;
    }
    if !matched {
        return AskRow::NotMatched;
    }
    let Some(held) = &state.held else {
        return AskRow::Granted;
    };
    if is_rank_too_low(held.rank, asked.by_priority, rank) {
        return AskRow::RankTooLow {
            old: held.rank,
            new: rank,
        };
    }
    contested_row(state.pair)
}

// Whether a claim is ranked too low to take a slot from another one.
fn is_rank_too_low(old: i64, by_priority: bool, new: i64) -> bool
    ensures { result ≡ is_rank_too_low old by_priority new }
{
    new < old || (new == old && !by_priority)
}

fn contested_row(pair: Pair) -> AskRow
    ensures { result ≡ contested_row pair }
{
    match pair {
        Pair::ClaimedIdle => AskRow::HandedOver,
        _ => AskRow::MadeRival,
    }
}

/// A claim is asked for: `matched` says whether the job's ad and the slot's match.
pub(crate) fn ask(
    alloc: Global,
    slot: &Slot,
    asked: Asked,
    ad: &Ad,
    matched: bool,
    reading: u64,
) -> Result<Reaction, Memory>
    ensures { IfOk result (λ done. done ≡ after_ask slot.now asked ad.now matched reading) }
{
    let rank = rank(alloc, &slot.ad, ad, reading)?;
    let user = Text::from_str(alloc, owner_of(ad))?;
    let row = ask_row(&slot.state, asked, matched, rank);
    let mut done = Reaction::none(alloc, &slot.state)?;
    done.take_ask(row, asked, user, rank, reading)?;
    Ok(done)
}

impl Reaction {
    // Of a slot with which nothing was done yet.
    fn take_ask(
        &mut self,
        row: AskRow,
        asked: Asked,
        user: Text,
        rank: i64,
        reading: u64,
    ) -> Result<(), Memory>
        requires { self.old ≡ becomes self.old.state }
        ensures { IfOk result (λ _. self.new
            ≡ after_ask_row row asked user rank reading self.old.state) }
    {
        match row {
            AskRow::NotOffered => self.send(denied(asked, Why::NoSuchClaim)),
            AskRow::NotMatched => self.send(denied(asked, Why::NotMatched)),
            AskRow::RankTooLow { old, new } => {
                self.send(denied(asked, Why::RankTooLow { old, new }))
            }
            AskRow::Granted => {
                grant(&mut self.state, asked, user, rank, Cue::Grant, reading);
                self.send(granted(asked.claim, asked.job))
            }
            AskRow::HandedOver => {
                self.state.end_claim();
                grant(&mut self.state, asked, user, rank, Cue::Handover, reading);
                self.send(granted(asked.claim, asked.job))
            }
            AskRow::MadeRival => {
                make_rival(&mut self.state, asked, user, rank);
                self.state.enter(Cue::Retire, reading);
                Ok(())
            }
        }
    }
}

fn grant(state: &mut SlotState, asked: Asked, user: Text, rank: i64, cue: Cue, reading: u64)
    ensures { state.new ≡ granted_to asked user rank cue reading state.old }
{
    state.offer = None;
    state.hold(asked.claim, user, rank, reading);
    state.enter(cue, reading);
}

fn make_rival(state: &mut SlotState, asked: Asked, user: Text, rank: i64)
    ensures { state.new ≡ with_rival asked user rank state.old }
{
    state.rival = Some(Rival {
        claim: asked.claim,
        job: asked.job,
        user,
        rank,
    });
    state.offer = None;
}

fn denied(asked: Asked, why: Why) -> Mail
    ensures { result ≡ ask_denied asked why }
{
    Mail::Denied {
        claim: asked.claim.no,
        run: None,
        job: asked.job,
        why,
    }
}

pub(crate) fn granted(claim: ClaimId, job: JobId) -> Mail
    ensures { result ≡ mail.Granted claim job }
{
    Mail::Granted { claim, job }
}

/// A job was matched with the slot's offer.
pub(crate) fn matched(
    alloc: Global,
    state: &SlotState,
    claim: ClaimId,
    reading: u64,
) -> Result<Reaction, Memory>
    ensures { IfOk result (λ done. done ≡ after_matched claim reading state.now) }
{
    let mut done = Reaction::none(alloc, state)?;
    if is_unclaimed(state.pair) && state.offers(claim) {
        done.state.enter(Cue::Match, reading);
    }
    Ok(done)
}

fn is_unclaimed(pair: Pair) -> bool
    ensures { result ≡ is_unclaimed pair }
{
    match pair {
        Pair::UnclaimedIdle => true,
        _ => false,
    }
}

/// What becomes of a claim that is given up.
#[derive(Clone, Copy)]
pub(crate) enum ReleaseRow {
    Finished,
    Retiring,
    RivalGone,
    Nothing,
}

fn release_row(state: &SlotState, claim: ClaimNo) -> ReleaseRow
    ensures { result ≡ release_row state.now claim }
{
    if state.holds(claim) {
        return held_row(state.running(), state.pair);
    }
    if state.has_rival(claim) {
        ReleaseRow::RivalGone
    } else {
        ReleaseRow::Nothing
    }
}

fn held_row(running: Option<&Running>, pair: Pair) -> ReleaseRow
    ensures { result ≡ held_row (option_copied running.entry) pair }
{
    if running.is_none() {
        return ReleaseRow::Finished;
    }
    if is_busy(pair) {
        ReleaseRow::Retiring
    } else {
        ReleaseRow::Nothing
    }
}

/// A claim is given up.
pub(crate) fn release(
    alloc: Global,
    state: &SlotState,
    claim: ClaimNo,
    reading: u64,
) -> Result<Reaction, Memory>
    ensures { IfOk result (λ done. done ≡ after_release claim reading state.now) }
{
    let mut done = Reaction::none(alloc, state)?;
    take_release(&mut done.state, release_row(state, claim), reading);
    Ok(done)
}

fn take_release(state: &mut SlotState, row: ReleaseRow, reading: u64)
    ensures { state.new ≡ after_release_row row reading state.old }
{
    match row {
        ReleaseRow::Finished => {
            state.end_claim();
            state.enter(Cue::Finish, reading);
        }
        ReleaseRow::Retiring => state.enter(Cue::Retire, reading),
        ReleaseRow::RivalGone => state.rival = None,
        ReleaseRow::Nothing => {}
    }
}
