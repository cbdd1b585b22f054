// What is handed in that was judged.

ghost use Rattle.std.specs.Prelude.{IfOk, length};
ghost use Rattle.pool_cases.specs.Marks.{IsGivenToAny};

use crate::events::read_ads;
use crate::judging::{Evidence, evidence_of, judge_pair};
use crate::outcome::memory;
use ad_eval::{FoundMatch, Judged, NoMatch, none_match};
use ad_tree::{Ad, AdList};
use ad_value::{Copied, Memory};
use cases::{Case, CaseError};
use claim_id::{ClaimId, JobId, SlotId};
use daemon_texts::{Fields, slot_id_of};
use pool_core::Pool;
use pool_mail::{Mail, Match, MatchList, Request, SlotAd};
use pool_outer::Daemon;
use pool_parts::{Event, JudgedList, Look};
use pool_tables::MailError;
use startd_slot::claim_of;
use std::alloc::Global;
use std::marker::Model;

/// `receive DAEMON BOOT INDEX READING JUDGE`
pub(crate) fn read_receive(
    alloc: Global,
    fields: &mut Fields<'_>,
    pool: &Pool,
) -> Result<Event, CaseError>
    ensures { IfOk result IsGivenToAny }
{
    let who = fields.daemon()?;
    let boot = fields.natural()?;
    let index = fields.natural()?;
    let reading = fields.natural()?;
    let (judged, none) = read_evidence(alloc, fields, pool, who, index)?.into_parts();
    Ok(Event::Receive {
        who,
        boot,
        index,
        reading,
        judged,
        none,
    })
}

// `-`, `own T` or `ads T AD AD`
fn read_evidence(
    alloc: Global,
    fields: &mut Fields<'_>,
    pool: &Pool,
    who: Daemon,
    index: u64,
) -> Result<Evidence, CaseError> {
    match fields.field()? {
        "-" => Ok(Evidence::nothing()),
        "own" => {
            let at = fields.natural()?;
            memory(own_evidence(alloc, pool, who, index, at))
        }
        "ads" => evidence_said(alloc, fields),
        _ => Err(fields.form()),
    }
}

fn evidence_said(alloc: Global, fields: &mut Fields<'_>) -> Result<Evidence, CaseError> {
    let at = fields.natural()?;
    let job = fields.ad(alloc)?;
    evidence_with(alloc, fields, &job, at)
}

fn evidence_with(
    alloc: Global,
    fields: &mut Fields<'_>,
    job: &Ad,
    at: u64,
) -> Result<Evidence, CaseError> {
    let slot = fields.ad(alloc)?;
    memory(evidence_of(alloc, job, &slot, at))
}

// Of a mail's ad and its slot's.
fn own_evidence(
    alloc: Global,
    pool: &Pool,
    who: Daemon,
    index: u64,
    at: u64,
) -> Result<Evidence, Memory> {
    match pool.mail(alloc, who, index) {
        Ok(mail) => mail_evidence(alloc, pool, &mail, at),
        Err(MailError::Memory) => Err(Memory),
        Err(_) => Ok(Evidence::nothing()),
    }
}

fn mail_evidence(alloc: Global, pool: &Pool, mail: &Mail, at: u64) -> Result<Evidence, Memory> {
    match (mail.ad(), claim_of(mail)) {
        (Some(ad), Some(claim)) => slot_evidence(alloc, pool, ad, claim.slot, at),
        _ => Ok(Evidence::nothing()),
    }
}

fn slot_evidence(
    alloc: Global,
    pool: &Pool,
    job: &Ad,
    slot: SlotId,
    at: u64,
) -> Result<Evidence, Memory> {
    match pool.slot_ad(alloc, slot)? {
        Some(slot) => evidence_of(alloc, job, &slot, at),
        None => Ok(Evidence::nothing()),
    }
}

// ---- matches

// `JOB CLAIM BY_PRIORITY T JOBAD SLOTAD`
const MATCH_FIELDS: usize = 6;

/// `matches READING`, and for each match `JOB CLAIM BY_PRIORITY T JOBAD SLOTAD`
pub(crate) fn read_matches(
    alloc: Global,
    fields: &mut Fields<'_>,
    pool: &Pool,
) -> Result<Event, CaseError>
    ensures { IfOk result IsGivenToAny }
{
    let reading = fields.natural()?;
    let found = Found::read(alloc, fields, pool)?;
    found.into_event(fields, reading)
}

// Matches and what they were judged by. Contracts see the matches.
struct Found {
    list: MatchList,
    judged: JudgedList,
}

impl Drop for Found {
    fn drop(self) {
        let Found {
            list: _list,
            judged: _judged,
        } = self;
    }
}

impl Model for Found {
    ghost use Rattle.std.specs.Prelude.{List};
    ghost use Rattle.pool_mail.specs.declared.matching.Match.{Match};
    ghost use Rattle.pool_rules.specs.Given.{AreNumbered};

    ghost Value = { List Match };

    ghost view = { λ f. f.list };

    ghost invariant = { λ f. AreNumbered f.list };
}

impl Found {
    fn read(alloc: Global, fields: &mut Fields<'_>, pool: &Pool) -> Result<Found, CaseError> {
        let mut found = Found {
            list: MatchList::new(alloc),
            judged: JudgedList::new(alloc),
        };
        found.add_all(alloc, fields, pool)?;
        Ok(found)
    }

    fn add_all(
        &mut self,
        alloc: Global,
        fields: &mut Fields<'_>,
        pool: &Pool,
    ) -> Result<(), CaseError> {
        for _ in 0..fields.left() / MATCH_FIELDS {
            self.add(alloc, fields, pool)?;
        }
        Ok(())
    }

    fn add(
        &mut self,
        alloc: Global,
        fields: &mut Fields<'_>,
        pool: &Pool,
    ) -> Result<(), CaseError> {
        let found = read_match(alloc, fields, pool)?;
        self.add_match(found)?;
        let judged = read_judged(alloc, fields, pool, found)?;
        memory(self.judged.push(judged))
    }

    fn add_match(&mut self, found: Match) -> Result<(), CaseError> {
        match self.list.push(found) {
            Ok(()) => Ok(()),
            Err(Memory) => Err(CaseError::Memory),
        }
    }

    // Each match has what it was judged by.
    fn into_event(self, fields: &Fields<'_>, reading: u64) -> Result<Event, CaseError>
        ensures { IfOk result IsGivenToAny }
    {
        let Found { list, judged } = self;
        if list.len() != judged.len() {
            return Err(fields.form());
        }
        Ok(Event::Matches {
            list,
            judged,
            reading,
        })
    }
}

fn read_match(alloc: Global, fields: &mut Fields<'_>, pool: &Pool) -> Result<Match, CaseError> {
    Ok(Match {
        job: fields.job()?,
        claim: read_offer(alloc, fields, pool)?,
        by_priority: fields.truth()?,
    })
}

// `M:S` is the claim that the slot offers.
fn read_offer(alloc: Global, fields: &mut Fields<'_>, pool: &Pool) -> Result<ClaimId, CaseError> {
    let field = fields.field()?;
    match slot_id_of(field) {
        Some(slot) => there_is(fields, offered_claim(alloc, pool, slot)),
        None => fields.claim_of(field),
    }
}

fn offered_claim(alloc: Global, pool: &Pool, slot: SlotId) -> Result<Option<ClaimId>, Memory> {
    let look = pool.look(alloc)?;
    Ok(claim_in(look.slots.as_slice(), slot))
}

fn claim_in(slots: &[SlotAd], slot: SlotId) -> Option<ClaimId> {
    let told = slots.iter().find(|told| told.slot == slot)?;
    told.claim
}

fn read_judged(
    alloc: Global,
    fields: &mut Fields<'_>,
    pool: &Pool,
    found: Match,
) -> Result<Judged, CaseError> {
    let at = fields.natural()?;
    let job = read_job_ad(alloc, fields, pool, found.job)?;
    judged_with(alloc, fields, pool, &job, found.claim.no.slot, at)
}

fn judged_with(
    alloc: Global,
    fields: &mut Fields<'_>,
    pool: &Pool,
    job: &Ad,
    slot: SlotId,
    at: u64,
) -> Result<Judged, CaseError> {
    let slot = read_slot_ad(alloc, fields, pool, slot)?;
    match judge_pair(alloc, job, &slot, at) {
        Ok(Some(judged)) => Ok(judged),
        Ok(None) => Err(fields.form()),
        Err(Memory) => Err(CaseError::Memory),
    }
}

// `-` is the ad that the pool gives for the job.
fn read_job_ad(
    alloc: Global,
    fields: &mut Fields<'_>,
    pool: &Pool,
    job: JobId,
) -> Result<Ad, CaseError> {
    let field = fields.field()?;
    if field != "-" {
        return fields.ad_of(alloc, field);
    }
    there_is(fields, wanted_ad(alloc, pool, job))
}

// `-` is the ad that the pool gives for the slot.
fn read_slot_ad(
    alloc: Global,
    fields: &mut Fields<'_>,
    pool: &Pool,
    slot: SlotId,
) -> Result<Ad, CaseError> {
    let field = fields.field()?;
    if field != "-" {
        return fields.ad_of(alloc, field);
    }
    there_is(fields, pool.slot_ad(alloc, slot))
}

// What a pool may give.
fn there_is<T: Drop>(
    fields: &Fields<'_>,
    given: Result<Option<T>, Memory>,
) -> Result<T, CaseError> {
    match given {
        Ok(Some(given)) => Ok(given),
        Ok(None) => Err(fields.form()),
        Err(Memory) => Err(CaseError::Memory),
    }
}

fn wanted_ad(alloc: Global, pool: &Pool, job: JobId) -> Result<Option<Ad>, Memory> {
    let wants = pool.wants(alloc)?;
    ad_in(alloc, wants.as_slice(), job)
}

fn ad_in(alloc: Global, wants: &[Request], job: JobId) -> Result<Option<Ad>, Memory> {
    for request in wants {
        if request.job == job {
            return Ok(Some(request.ad.copy(alloc)?));
        }
    }
    Ok(None)
}

// ---- closing

/// `close LENGTH READING T`, or `close LENGTH READING T COUNT AD ..`: the event, or the least pair
/// that matches.
pub(crate) fn read_close(
    alloc: Global,
    case: Case<'_>,
    pool: &Pool,
) -> Result<Result<Event, FoundMatch>, CaseError>
    ensures { IfOk result (λ r. IfOk r IsGivenToAny) }
{
    let mut fields = Fields::of(alloc, case)?;
    close_of(alloc, &mut fields, pool)
}

fn close_of(
    alloc: Global,
    fields: &mut Fields<'_>,
    pool: &Pool,
) -> Result<Result<Event, FoundMatch>, CaseError>
    ensures { IfOk result (λ r. IfOk r IsGivenToAny) }
{
    let length = fields.natural()?;
    let reading = fields.natural()?;
    match read_mismatch(alloc, fields, pool)? {
        Ok(none) => Ok(Ok(Event::Close {
            length,
            reading,
            none,
        })),
        Err(found) => Ok(Err(found)),
    }
}

// `T`, or `T COUNT AD ..`: that none of the pool's idle jobs and slots, or of the ads, match then,
// or the least pair that does.
fn read_mismatch(
    alloc: Global,
    fields: &mut Fields<'_>,
    pool: &Pool,
) -> Result<Result<NoMatch, FoundMatch>, CaseError> {
    let at = fields.natural()?;
    if fields.left() == 0 {
        return memory(own_mismatch(alloc, pool, at));
    }
    let count = fields.natural()?;
    let jobs = read_ads(alloc, fields, count)?;
    mismatch_with(alloc, fields, &jobs, at)
}

fn mismatch_with(
    alloc: Global,
    fields: &mut Fields<'_>,
    jobs: &AdList,
    at: u64,
) -> Result<Result<NoMatch, FoundMatch>, CaseError> {
    let count = fields.left() as u64;
    let slots = read_ads(alloc, fields, count)?;
    memory(none_match(alloc, jobs, &slots, at))
}

// Of the pool's idle jobs and slots.
fn own_mismatch(
    alloc: Global,
    pool: &Pool,
    at: u64,
) -> Result<Result<NoMatch, FoundMatch>, Memory> {
    let look = pool.look(alloc)?;
    mismatch_of(alloc, &look, at)
}

fn mismatch_of(alloc: Global, look: &Look, at: u64) -> Result<Result<NoMatch, FoundMatch>, Memory> {
    let jobs = idle_ads(alloc, look.idle.as_slice())?;
    mismatch_by(alloc, &jobs, look.slots.as_slice(), at)
}

fn mismatch_by(
    alloc: Global,
    jobs: &AdList,
    slots: &[SlotAd],
    at: u64,
) -> Result<Result<NoMatch, FoundMatch>, Memory> {
    let slots = slot_ads(alloc, slots)?;
    none_match(alloc, jobs, &slots, at)
}

fn idle_ads(alloc: Global, idle: &[Request]) -> Result<AdList, Memory> {
    let mut ads = AdList::new(alloc);
    for request in idle {
        ads.push(request.ad.copy(alloc)?)?;
    }
    Ok(ads)
}

fn slot_ads(alloc: Global, slots: &[SlotAd]) -> Result<AdList, Memory> {
    let mut ads = AdList::new(alloc);
    for slot in slots {
        ads.push(slot.ad.copy(alloc)?)?;
    }
    Ok(ads)
}
