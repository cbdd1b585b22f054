// A slot and the mails that speak of it.

ghost use Rattle.std.specs.Prelude.{◌≡◌, IfOk};
ghost use Rattle.startd_slot.specs.Mails.{asked_claim, reaction_to, is_judged_row, is_judged};

use crate::ask::{Asked, ask, matched, release};
use crate::reaction::Reaction;
use crate::run_mails::{ActivateRow, Activation, activate, activate_row, alive, stop};
use crate::slot::Slot;
use ad_eval::Judged;
use ad_value::Memory;
use claim_id::ClaimNo;
use pool_mail::Mail;
use std::alloc::Global;

/// The claim that a mail to a startd speaks of; none for a mail to another daemon. Computes in
/// O(1), without memory.
pub fn claim_of(mail: &Mail) -> Option<ClaimNo>
    ensures { result ≡ asked_claim mail.now }
{
    match mail {
        Mail::Matched(found) => Some(found.claim.no),
        Mail::Ask { claim, .. } => Some(claim.no),
        Mail::Activate { run, .. } | Mail::Alive { run, .. } | Mail::Stop { run } => {
            Some(run.claim)
        }
        Mail::Release { claim } => Some(*claim),
        _ => None,
    }
}

/// Whether a mail is judged, at a reading, with the ad of the slot of which it speaks; `boot` is
/// that of the slot's machine. Computes in O(1), without memory.
pub fn is_judged(boot: u64, slot: &Slot, mail: &Mail, reading: u64) -> bool
    ensures { result ≡ is_judged boot slot.now mail.now reading }
{
    match mail {
        Mail::Ask { claim, .. } => slot.state.offers(*claim),
        Mail::Activate {
            run,
            job,
            until,
            ..
        } => {
            let asked = Activation {
                run: *run,
                job: *job,
                until: *until,
            };
            is_judged_row(activate_row(&slot.state, boot, asked, false, reading))
        }
        _ => false,
    }
}

fn is_judged_row(row: ActivateRow) -> bool
    ensures { result ≡ is_judged_row row }
{
    match row {
        ActivateRow::NotMatched => true,
        _ => false,
    }
}

/// What a mail, received at a reading, makes of a slot; `boot` is that of the slot's machine, and
/// `judged` is the match of the mail's ad and the slot's, where they match. Computes in
/// O(attributes of the mail's ad), and an evaluation of Rank for an Ask.
#[tactic(auto, unfolding(crate::specs::Mails::reaction_to))]
pub fn react(
    alloc: Global,
    boot: u64,
    slot: &Slot,
    mail: &Mail,
    judged: Option<Judged>,
    reading: u64,
) -> Result<Reaction, Memory>
    ensures { IfOk result (λ r. r ≡ reaction_to boot slot.now mail.now judged reading) }
{
    let state = &slot.state;
    match mail {
        Mail::Matched(found) => matched(alloc, state, found.claim, reading),
        Mail::Ask {
            claim,
            job,
            ad,
            by_priority,
        } => {
            let asked = Asked {
                claim: *claim,
                job: *job,
                by_priority: *by_priority,
            };
            ask(alloc, slot, asked, ad, judged.is_some(), reading)
        }
        Mail::Activate {
            run,
            job,
            ad,
            until,
        } => {
            let asked = Activation {
                run: *run,
                job: *job,
                until: *until,
            };
            activate(alloc, state, boot, asked, ad, judged, reading)
        }
        Mail::Alive { run, until } => alive(alloc, state, boot, *run, *until, reading),
        Mail::Stop { run } => stop(alloc, state, boot, *run),
        Mail::Release { claim } => release(alloc, state, *claim, reading),
        _ => Reaction::none(alloc, state),
    }
}
