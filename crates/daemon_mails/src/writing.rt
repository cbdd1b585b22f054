// The text of a mail.

ghost use Rattle.std.specs.Prelude.{IfSome, OnOk};
ghost use Rattle.ad_value.specs.Writing.{AddsText};
ghost use Rattle.daemon_mails.specs.MailTexts.{denied_head, ended_text, gone_text, granted_text, mail_text, matched_text, of_run_text, order_text, release_text, run_until_text, short_text, some_run_text};

use ad_value::Text;
use claim_id::{ClaimId, ClaimNo, JobId, RunNo, SlotId};
use daemon_texts::{
    write_ad, write_claim, write_claim_no, write_how, write_job, write_pair, write_run, write_why,
};
use pool_mail::{How, Mail, Match, SlotAd};
use std::alloc::{AllocError, Global};
use std::fmt::Write;

/// Appends a mail as a field, with its escapes. Computes in O(bytes).
pub fn write_mail(alloc: Global, mail: &Mail, out: &mut String) -> Result<(), AllocError>
    ensures { IfSome (mail_text mail.now) (λ text. OnOk result (AddsText out.old out.new text)) }
{
    match mail {
        Mail::Update(slot) => write_slot(alloc, slot, out),
        Mail::Matched(found) => write_matched(found, out),
        Mail::Ask {
            claim,
            job,
            ad,
            by_priority,
        } => {
            write_ask(*claim, *job, *by_priority, out)?;
            write_ad(alloc, ad, out)
        }
        Mail::Granted { claim, job } => write_granted(*claim, *job, out),
        Mail::Denied {
            claim,
            run,
            job,
            why,
        } => {
            write_denied(*claim, *run, *job, out)?;
            write_why(*why, out)
        }
        Mail::Activate {
            run,
            job,
            ad,
            until,
        } => {
            write_activate(*run, *job, *until, out)?;
            write_ad(alloc, ad, out)
        }
        _ => write_short(mail, out),
    }
}

#[tactic(auto, unfolding(crate::specs::MailTexts::matched_text))]
fn write_matched(found: &Match, out: &mut String) -> Result<(), AllocError>
    ensures { OnOk result (AddsText out.old out.new (matched_text found.now)) }
{
    write_order("Matched", found.job, out)?;
    out.push_str(" claim=")?;
    write_claim(found.claim, out)?;
    let by_priority = found.by_priority;
    write!(out, " by_priority={by_priority}")
}

// All of an Ask but its ad.
fn write_ask(
    claim: ClaimId,
    job: JobId,
    by_priority: bool,
    out: &mut String,
) -> Result<(), AllocError> {
    out.push_str("Ask claim=")?;
    write_claim(claim, out)?;
    write_order("", job, out)?;
    write!(out, " by_priority={by_priority} ad=")
}

#[tactic(auto, unfolding(crate::specs::MailTexts::granted_text))]
fn write_granted(claim: ClaimId, job: JobId, out: &mut String) -> Result<(), AllocError>
    ensures { OnOk result (AddsText out.old out.new (granted_text claim job)) }
{
    out.push_str("Granted claim=")?;
    write_claim(claim, out)?;
    write_order("", job, out)
}

// All of a Denied but its cause.
#[tactic(auto, unfolding(crate::specs::MailTexts::denied_head))]
fn write_denied(
    claim: ClaimNo,
    run: Option<RunNo>,
    job: JobId,
    out: &mut String,
) -> Result<(), AllocError>
    ensures { OnOk result (AddsText out.old out.new (denied_head claim run job)) }
{
    out.push_str("Denied claim=")?;
    write_claim_no(claim, out)?;
    out.push_str(" run=")?;
    write_some_run(run, out)?;
    write_order("", job, out)?;
    out.push_str(" why=")
}

// All of an Activate but its ad.
fn write_activate(run: RunNo, job: JobId, until: u64, out: &mut String) -> Result<(), AllocError> {
    out.push_str("Activate run=")?;
    write_run(run, out)?;
    write_order("", job, out)?;
    write!(out, " until={until} ad=")
}

/// Appends an answer's `ok`, and each mail behind a tab. Computes in O(bytes).
pub fn write_mails(alloc: Global, mails: &[Mail], out: &mut String) -> Result<(), AllocError> {
    out.push_str("ok")?;
    for mail in mails {
        out.push('\t')?;
        write_mail(alloc, mail, out)?;
    }
    Ok(())
}

// A mail without an ad, that has at most a run, or a claim or a job, and one more field.
fn write_short(mail: &Mail, out: &mut String) -> Result<(), AllocError>
    ensures { IfSome (short_text mail.now) (λ text. OnOk result (AddsText out.old out.new text)) }
{
    match mail {
        Mail::Alive { run, until } => write_run_until("Alive", *run, *until, out),
        Mail::Seen { run, until } => write_run_until("Seen", *run, *until, out),
        Mail::Stop { run } => write_of_run("Stop", *run, out),
        Mail::Release { claim } => write_release(*claim, out),
        Mail::Gone { run, kept } => write_gone(*run, *kept, out),
        Mail::Ended { run, how } => write_ended(*run, *how, out),
        Mail::Remove { job } => write_order("Remove", *job, out),
        Mail::Hold { job } => write_order("Hold", *job, out),
        Mail::Resume { job } => write_order("Resume", *job, out),
        _ => Ok(()),
    }
}

#[tactic(auto, unfolding(crate::specs::MailTexts::of_run_text))]
fn write_of_run(name: &str, run: RunNo, out: &mut String) -> Result<(), AllocError>
    ensures { OnOk result (AddsText out.old out.new (of_run_text name.now run)) }
{
    write!(out, "{name} run=")?;
    write_run(run, out)
}

#[tactic(auto, unfolding(crate::specs::MailTexts::run_until_text))]
fn write_run_until(name: &str, run: RunNo, until: u64, out: &mut String) -> Result<(), AllocError>
    ensures { OnOk result (AddsText out.old out.new (run_until_text name.now run until)) }
{
    write_of_run(name, run, out)?;
    write!(out, " until={until}")
}

#[tactic(auto, unfolding(crate::specs::MailTexts::gone_text))]
fn write_gone(run: RunNo, kept: bool, out: &mut String) -> Result<(), AllocError>
    ensures { OnOk result (AddsText out.old out.new (gone_text run kept)) }
{
    write_of_run("Gone", run, out)?;
    write!(out, " kept={kept}")
}

#[tactic(auto, unfolding(crate::specs::MailTexts::ended_text))]
fn write_ended(run: RunNo, how: How, out: &mut String) -> Result<(), AllocError>
    ensures { OnOk result (AddsText out.old out.new (ended_text run how)) }
{
    write_of_run("Ended", run, out)?;
    out.push_str(" how=")?;
    write_how(how, out)
}

#[tactic(auto, unfolding(crate::specs::MailTexts::release_text))]
fn write_release(claim: ClaimNo, out: &mut String) -> Result<(), AllocError>
    ensures { OnOk result (AddsText out.old out.new (release_text claim)) }
{
    out.push_str("Release claim=")?;
    write_claim_no(claim, out)
}

#[tactic(auto, unfolding(crate::specs::MailTexts::order_text))]
fn write_order(name: &str, job: JobId, out: &mut String) -> Result<(), AllocError>
    ensures { OnOk result (AddsText out.old out.new (order_text name.now job)) }
{
    write!(out, "{name} job=")?;
    write_job(job, out)
}

fn write_some_run(run: Option<RunNo>, out: &mut String) -> Result<(), AllocError>
    ensures { OnOk result (AddsText out.old out.new (some_run_text run)) }
{
    match run {
        Some(run) => write_run(run, out),
        None => out.push('-'),
    }
}

fn write_some_claim(claim: Option<ClaimId>, out: &mut String) -> Result<(), AllocError> {
    match claim {
        Some(claim) => write_claim(claim, out),
        None => out.push('-'),
    }
}

fn write_slot(alloc: Global, slot: &SlotAd, out: &mut String) -> Result<(), AllocError> {
    write_slot_id(slot.slot, out)?;
    write_value("name", slot.name.as_str(), out)?;
    out.push_str(" claim=")?;
    write_some_claim(slot.claim, out)?;
    out.push_str(" pair=")?;
    write_pair(slot.pair, out)?;
    write_value("user", user_text(&slot.user), out)?;
    write_rank(slot.rank, slot.at, out)?;
    write_ad(alloc, &slot.ad, out)
}

fn write_slot_id(slot: SlotId, out: &mut String) -> Result<(), AllocError> {
    let SlotId { machine, slot } = slot;
    write!(out, "Update slot={machine}:{slot}")
}

fn write_value(name: &str, value: &str, out: &mut String) -> Result<(), AllocError> {
    write!(out, " {name}={value}")
}

fn user_text(user: &Option<Text>) -> &str {
    match user {
        Some(user) => user.as_str(),
        None => "-",
    }
}

fn write_rank(rank: i64, at: u64, out: &mut String) -> Result<(), AllocError> {
    write!(out, " rank={rank} at={at} ad=")
}
