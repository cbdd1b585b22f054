// What a mail makes of a schedd.

ghost use Rattle.std.specs.Prelude.{◌≡◌, IfOk, OnErr};
ghost use Rattle.pool_mail.specs.declared.mail.Mail.TheVariants as of_mail;
ghost use Rattle.queue_tx.specs.Queues.{ad_at};
ghost use Rattle.queue_tx.specs.declared.key.Key.TheVariants.{Proc};
ghost use Rattle.schedd_plan.specs.KeptClaims.{with_stage};
ghost use Rattle.schedd_state.specs.PreparedSchedds.{CanPut, HasClaimRoom, IsRoomFor, claims_after, schedd_after};
ghost use Rattle.schedd_state.specs.Schedds.{nothing_done};
ghost use Rattle.schedd_core.specs.Prepared.{IsPrepared, sends};
ghost use Rattle.schedd_core.specs.Rows.{stage_known, run_known, mail_row, seen_row, gone_row, ended_row, noted, asked_in, after_row, after_mail};

use ad_value::{Copied, Memory};
use claim_id::{ClaimId, ClaimNo, JobId, RunNo};
use pool_mail::{How, Mail, request_ad};
use queue_tx::Queue;
use schedd_plan::{
    Fate, KeptClaim, MailRow, Reason, Stage, ad_of, denied_row, ended_plan, engages, fate_of_gone,
    granted_row, hold_plan, let_go, matched_row, order_row, place_of_claim, place_of_run,
    remove_plan, resume_plan,
};
use schedd_state::{ClaimsChange, PreparedSchedd, RunsChange, Schedd, ScheddStep};
use std::alloc::Global;

/// A mail is received; the queue is the one as logged, and no transaction is unfinished. After
/// an error the schedd is as it was. Computes in O(claims + runs + log jobs left + log jobs),
/// and an evaluation of OnExitHold and OnExitRemove for the end of a run.
pub fn receive(
    schedd: &mut Schedd,
    alloc: Global,
    queue: &Queue,
    mail: &Mail,
    reading: u64,
) -> Result<ScheddStep, Memory>
    ensures schedd { IfOk result (λ _. schedd.new
        ≡ (after_mail schedd.old queue.now mail.now reading).schedd) }
    ensures step { IfOk result (λ step. step
        ≡ (after_mail schedd.old queue.now mail.now reading).step) }
    ensures kept { OnErr result (schedd.new ≡ schedd.old) }
{
    let prepared = prepare_receive(schedd, alloc, queue, mail, reading)?;
    Ok(schedd.commit(prepared))
}

/// `receive` but for its `commit`: takes the memory, and changes nothing.
pub fn prepare_receive(
    schedd: &Schedd,
    alloc: Global,
    queue: &Queue,
    mail: &Mail,
    reading: u64,
) -> Result<PreparedSchedd, Memory>
    ensures schedd { IfOk result (λ p. schedd_after p schedd.now
        ≡ (after_mail schedd.now queue.now mail.now reading).schedd) }
    ensures step { IfOk result (λ p. p.step
        ≡ (after_mail schedd.now queue.now mail.now reading).step) }
    ensures room { IfOk result (λ p. HasClaimRoom p schedd.now) }
{
    let row = mail_row(schedd, alloc, queue, mail, reading)?;
    take_row(schedd, alloc, queue, row, reading)
}

// What becomes of a mail.
#[tactic(auto, unfolding(crate::specs::Rows::mail_row))]
fn mail_row(
    schedd: &Schedd,
    alloc: Global,
    queue: &Queue,
    mail: &Mail,
    reading: u64,
) -> Result<MailRow, Memory>
    ensures { IfOk result (λ row. row ≡ mail_row schedd.now queue.now mail.now reading) }
{
    match mail {
        Mail::Matched(found) => Ok(matched_row(
            schedd.place(queue, found.job),
            engages(schedd.claims(), found.job),
            place_of_claim(schedd.claims(), found.claim.no),
            found,
        )),
        Mail::Granted { claim, .. } => Ok(granted_row(known_claim(schedd, claim.no), claim.no)),
        Mail::Denied {
            claim,
            run,
            why,
            ..
        } => Ok(denied_row(known_claim(schedd, *claim), run.is_some(), *why)),
        Mail::Seen { run, .. } => Ok(seen_row(schedd, *run)),
        Mail::Gone { run, kept } => Ok(gone_row(schedd, queue, *run, *kept)),
        Mail::Ended { run, how } => ended_row(schedd, alloc, queue, *run, *how, reading),
        Mail::Remove { job } => Ok(order_row(remove_plan(schedd.place(queue, *job), *job))),
        Mail::Hold { job } => Ok(order_row(hold_plan(
            schedd.place(queue, *job),
            *job,
            Reason::ByCommand,
        ))),
        Mail::Resume { job } => Ok(order_row(resume_plan(schedd.place(queue, *job), *job))),
        _ => Ok(MailRow::Nothing),
    }
}

// The place of a claim, and how far it has come.
fn known_claim(schedd: &Schedd, claim: ClaimNo) -> Option<(usize, Stage)>
    ensures { result ≡ stage_known schedd.now claim }
{
    let place = place_of_claim(schedd.claims(), claim)?;
    let kept = schedd.claims().get(place)?;
    Some((place, kept.stage))
}

fn seen_row(schedd: &Schedd, run: RunNo) -> MailRow
    ensures { result ≡ seen_row schedd.now run }
{
    match place_of_run(schedd.runs(), run) {
        Some(place) => MailRow::Note { place },
        None => MailRow::Nothing,
    }
}

// The place of a run, and its job.
fn known_run(schedd: &Schedd, run: RunNo) -> Option<(usize, JobId)>
    ensures { result ≡ run_known schedd.now run }
{
    let place = place_of_run(schedd.runs(), run)?;
    let kept = schedd.runs().get(place)?;
    Some((place, kept.job))
}

fn gone_row(schedd: &Schedd, queue: &Queue, run: RunNo, kept: bool) -> MailRow
    ensures { result ≡ gone_row schedd.now queue.now run kept }
{
    match known_run(schedd, run) {
        Some((place, job)) => MailRow::Free {
            place,
            plan: let_go(queue, job),
            claim: run.claim,
            fate: fate_of_gone(kept),
        },
        None => MailRow::Nothing,
    }
}

fn ended_row(
    schedd: &Schedd,
    alloc: Global,
    queue: &Queue,
    run: RunNo,
    how: How,
    reading: u64,
) -> Result<MailRow, Memory>
    ensures { IfOk result (λ row. row ≡ ended_row schedd.now queue.now run how reading) }
{
    let Some((place, job)) = known_run(schedd, run) else {
        return Ok(MailRow::Nothing);
    };
    let Some(ad) = ad_of(queue, job) else {
        return Ok(MailRow::Nothing);
    };
    let plan = ended_plan(alloc, job, ad, how, reading)?;
    Ok(MailRow::Free {
        place,
        plan,
        claim: run.claim,
        fate: Fate::Ready,
    })
}

fn take_row(
    schedd: &Schedd,
    alloc: Global,
    queue: &Queue,
    row: MailRow,
    reading: u64,
) -> Result<PreparedSchedd, Memory>
    ensures { IfOk result (λ p. IsPrepared schedd.now p
        (after_row schedd.now queue.now row reading)) }
{
    match row {
        MailRow::Nothing => Ok(schedd.nothing(alloc)),
        MailRow::Ask {
            claim,
            job,
            by_priority,
        } => ask(schedd, alloc, queue, claim, job, by_priority, reading),
        MailRow::Ready { place } => Ok(stage(schedd, alloc, place, Stage::Ready)),
        MailRow::Release { claim } => release(schedd, alloc, ClaimsChange::Same, claim),
        MailRow::Forget { place } => {
            let claims = ClaimsChange::Remove { place };
            Ok(schedd.quiet(alloc, claims, RunsChange::Same))
        }
        MailRow::Leave { place } => Ok(stage(schedd, alloc, place, Stage::Leaving)),
        MailRow::Note { place } => Ok(note(schedd, alloc, place, reading)),
        MailRow::Free {
            place,
            plan,
            claim,
            fate,
        } => {
            let claims = ClaimsChange::Settle { claim, fate };
            Ok(schedd.wait_with(alloc, claims, RunsChange::Remove { place }, plan))
        }
        MailRow::Order { plan } => Ok(schedd.wait_for(alloc, plan)),
    }
}

// A run of a place is alive.
fn note(schedd: &Schedd, alloc: Global, place: usize, reading: u64) -> PreparedSchedd
    ensures schedd { schedd_after result schedd.now ≡ noted place reading schedd.now }
    ensures step { result.step ≡ nothing_done }
    ensures room { HasClaimRoom result schedd.now }
{
    let Some(kept) = schedd.runs().get(place) else {
        return schedd.nothing(alloc);
    };
    let runs = RunsChange::Alive {
        place,
        alive: reading,
        found: kept.found,
    };
    schedd.quiet(alloc, ClaimsChange::Same, runs)
}

// A claim is asked for.
fn ask(
    schedd: &Schedd,
    alloc: Global,
    queue: &Queue,
    claim: ClaimId,
    job: JobId,
    by_priority: bool,
    reading: u64,
) -> Result<PreparedSchedd, Memory>
    ensures { IfOk result (λ p. IsPrepared schedd.now p (asked_in
        (ad_at (Proc job) queue.now) schedd.now claim job by_priority reading)) }
{
    let Some(ad) = ad_of(queue, job) else {
        return Ok(schedd.nothing(alloc));
    };
    let request = request_ad(alloc, ad)?;
    let own = ad.copy(alloc)?;
    let room = claim_room(schedd, alloc)?;
    let asked = Mail::Ask {
        claim,
        job,
        ad: request,
        by_priority,
    };
    let kept = KeptClaim {
        claim,
        job,
        stage: Stage::Asked { at: reading },
        ad: own,
    };
    schedd.send(alloc, ClaimsChange::Put { claim: kept, room }, asked)
}

// Room for more claims than there are.
fn claim_room(schedd: &Schedd, alloc: Global) -> Result<Vec<KeptClaim>, Memory>
    ensures { IfOk result (λ room. IsRoomFor schedd.now.claims room) }
{
    let count = schedd.claims().len();
    let Some(more) = count.checked_add(1) else {
        return Err(Memory);
    };
    Ok(Vec::with_capacity(alloc, more.max(count.saturating_mul(2)))?)
}

// A claim is given up.
pub(crate) fn release(
    schedd: &Schedd,
    alloc: Global,
    claims: ClaimsChange,
    claim: ClaimNo,
) -> Result<PreparedSchedd, Memory>
    requires { CanPut claims schedd.now.claims }
    ensures { IfOk result (λ p. IsPrepared schedd.now p (sends (of_mail.Release claim)
        (record schedd.now { claims = claims_after claims schedd.now.claims }))) }
{
    schedd.send(alloc, claims, Mail::Release { claim })
}

// The claim of a place has come so far.
fn stage(schedd: &Schedd, alloc: Global, place: usize, stage: Stage) -> PreparedSchedd
    ensures schedd { schedd_after result schedd.now
        ≡ record schedd.now { claims = with_stage place stage schedd.now.claims } }
    ensures step { result.step ≡ nothing_done }
    ensures room { HasClaimRoom result schedd.now }
{
    schedd.quiet(
        alloc,
        ClaimsChange::Stage { place, stage },
        RunsChange::Same,
    )
}
