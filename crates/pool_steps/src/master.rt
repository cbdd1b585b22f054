// What the master and the matchmaker do.

ghost use Rattle.std.specs.Prelude.{◌≡◌, ◌+◌, ◌<◌, ◌≤◌, ◌*◌, ◌∷◌, [], Err, length, position, slice_get, IfErr, IfOk, OnErr, OnOk};
ghost use Rattle.pool_outer.specs.declared.gate.Daemon.TheVariants.{Schedd};
ghost use Rattle.pool_rules.specs.Deeds.{at_rest, rested, sends};
ghost use Rattle.pool_rules.specs.Happens.{IsDone};
ghost use Rattle.pool_rules.specs.Limits.{IsLimit, IsTooLarge, IsWithin};
ghost use Rattle.pool_rules.specs.Masters.{gives, mails_at, match_mails, mails_of_matches, passes};
ghost use Rattle.pool_tables.specs.MailLists.{sent_now};
ghost use Rattle.pool_tables.specs.OrderTables.{is_due_for, order_mail};
ghost use Rattle.pool_tables.specs.declared.refusal.StepError.TheVariants as error;

use crate::begun::nothing_asked;
use crate::limits::limited;
use ad_value::Memory;
use claim_id::{JobId, Verb};
use pool_mail::{Mail, Match};
use pool_outer::Daemon;
use pool_parts::Stepped;
use pool_state::PoolState;
use pool_tables::{Mails, StepError, order_mail};

/// The first order of that verb and job that is due is given to the schedd. Bytes where the pool
/// has more bytes of ads than it may; after an error the pool is as it was. Computes in O(orders).
pub fn give_order(
    state: &mut PoolState,
    verb: Verb,
    job: JobId,
    reading: u64,
) -> Result<Stepped, StepError>
    ensures given { IfOk result (λ r. (at_rest state.new ≡ gives
        (position (is_due_for verb job reading) state.old.orders) verb job
        (at_rest state.old)) × IsDone r) }
    ensures within { OnOk result (IsWithin state.new) }
    ensures large { result ≡ Err error.Bytes → IsTooLarge (λ new r. (new ≡ gives
        (position (is_due_for verb job reading) state.old.orders) verb job
        (at_rest state.old)) × IsDone r) }
    ensures refused { IfErr result IsLimit }
    ensures kept { OnErr result (at_rest state.new ≡ at_rest state.old) }
{
    let _bytes = limited(state.counts.bytes)?;
    give(state, verb, job, reading)?;
    Ok(nothing_asked())
}

// The first order that is due is given, whatever the pool's bytes.
fn give(state: &mut PoolState, verb: Verb, job: JobId, reading: u64) -> Result<(), Memory>
    ensures given { OnOk result (at_rest state.new ≡ gives
        (position (is_due_for verb job reading) state.old.orders) verb job
        (at_rest state.old)) }
    ensures kept { OnErr result (at_rest state.new ≡ at_rest state.old) }
    ensures counts { state.new.counts ≡ state.old.counts }
{
    let Some(place) = state.orders.first_due(verb, job, reading) else {
        return Ok(());
    };
    state.mails.room(1)?;
    let number = state.mails.len();
    put_order(&mut state.mails, verb, job);
    state.orders.give(place, number);
    Ok(())
}

fn put_order(mails: &mut Mails, verb: Verb, job: JobId)
    requires { 0 < mails.old.spare }
    ensures { rested mails.new ≡ sends (sent_now (order_mail verb job) Schedd ∷ []) mails.old }
{
    mails.put(order_mail(verb, job), Daemon::Schedd);
}

/// Matches are told to the schedd and to the startds of their slots. Bytes where the pool has more
/// bytes of ads than it may; after an error the pool is as it was. Computes in O(matches).
pub fn pass_matches(state: &mut PoolState, list: &[Match]) -> Result<Stepped, StepError>
    ensures passed { IfOk result
        (λ r. (at_rest state.new ≡ passes list.now (at_rest state.old)) × IsDone r) }
    ensures within { OnOk result (IsWithin state.new) }
    ensures large { result ≡ Err error.Bytes
        → IsTooLarge (λ new r. (new ≡ passes list.now (at_rest state.old)) × IsDone r) }
    ensures refused { IfErr result IsLimit }
    ensures kept { OnErr result (at_rest state.new ≡ at_rest state.old) }
{
    let _bytes = limited(state.counts.bytes)?;
    pass(state, list)?;
    Ok(nothing_asked())
}

// Matches are told, whatever the pool's bytes.
fn pass(state: &mut PoolState, list: &[Match]) -> Result<(), Memory>
    ensures passed { OnOk result (at_rest state.new ≡ passes list.now (at_rest state.old)) }
    ensures kept { OnErr result (at_rest state.new ≡ at_rest state.old) }
    ensures counts { state.new.counts ≡ state.old.counts }
{
    let Some(count) = list.len().checked_mul(2) else {
        return Err(Memory);
    };
    state.mails.room(count)?;
    put_matches(&mut state.mails, list);
    Ok(())
}

fn put_matches(mails: &mut Mails, list: &[Match])
    requires { length list.now * 2 ≤ mails.old.spare }
    ensures { rested mails.new ≡ sends (mails_of_matches list.now) mails.old }
{
    for place in 0..list.len() {
        put_match_at(mails, list, place);
    }
}

// The match of a place is told.
fn put_match_at(mails: &mut Mails, list: &[Match], place: usize)
    requires { 2 ≤ mails.old.spare }
    ensures sent { rested mails.new ≡ sends (mails_at (slice_get list.now place)) mails.old }
    ensures spare { mails.old.spare ≤ mails.new.spare + 2 }
{
    if let Some(found) = match_at(list, place) {
        put_match(mails, &found);
    }
}

fn match_at(list: &[Match], place: usize) -> Option<Match>
    ensures { result ≡ slice_get list.now place }
{
    list.get(place).copied()
}

fn put_match(mails: &mut Mails, found: &Match)
    requires { 2 ≤ mails.old.spare }
    ensures sent { rested mails.new ≡ sends (match_mails found.now) mails.old }
    ensures spare { mails.new.spare + 2 ≡ mails.old.spare }
{
    let startd = Daemon::Startd(found.claim.no.slot.machine);
    mails.put(Mail::Matched(*found), Daemon::Schedd);
    mails.put(Mail::Matched(*found), startd);
}
