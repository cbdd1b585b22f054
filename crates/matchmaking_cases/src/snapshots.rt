use crate::readers::{ad_of, bad_form, claim_of, expr_of, job_of, number_of, slot_of, text_of};
use ad_tree::Expr;
use ad_value::{Memory, Seq, Value};
use cases::{Case, CaseError};
use matchmaker::{Holder, Offer, Snapshot, Submitter};
use pool_mail::Request;
use std::alloc::Global;
use std::mem::replace;

/// A snapshot without submitters and slots, in which no better priority takes a claim.
pub(crate) fn empty_snapshot(alloc: Global) -> Snapshot {
    Snapshot {
        now: 0,
        submitters: Seq::new(alloc),
        slots: Seq::new(alloc),
        preemption: Expr::Lit(Value::Bool(false)),
    }
}

/// The snapshot that a case begins: `NOW EXPR`.
pub(crate) fn open_snapshot(alloc: Global, case: Case<'_>) -> Result<Snapshot, CaseError> {
    let (now, preemption) = case.two_fields()?;
    Ok(Snapshot {
        now: case.natural(now)?,
        submitters: Seq::new(alloc),
        slots: Seq::new(alloc),
        preemption: expr_of(alloc, case, preemption)?,
    })
}

/// Adds a submitter: `USER EFFECTIVE IN_USE CEILING`.
pub(crate) fn add_submitter(
    alloc: Global,
    case: Case<'_>,
    snapshot: &mut Snapshot,
) -> Result<(), CaseError> {
    let (user, effective, in_use, ceiling) = case.four_fields()?;
    let ceiling = match ceiling {
        "-" => None,
        _ => Some(number_of(case, ceiling)?),
    };
    let submitter = Submitter {
        user: text_of(alloc, case, user)?,
        effective: case.natural(effective)?,
        in_use: number_of(case, in_use)?,
        ceiling,
        jobs: Seq::new(alloc),
    };
    match snapshot.submitters.push(submitter) {
        Ok(()) => Ok(()),
        Err(Memory) => Err(CaseError::Memory),
    }
}

/// Adds a request: `USER JOB AD`.
pub(crate) fn add_request(
    alloc: Global,
    case: Case<'_>,
    snapshot: &mut Snapshot,
) -> Result<(), CaseError> {
    let (user, job, ad) = case.three_fields()?;
    let user = text_of(alloc, case, user)?;
    let request = Request {
        job: job_of(case, job)?,
        ad: ad_of(alloc, case, ad)?,
    };
    let mut submitters = replace(&mut snapshot.submitters, Seq::new(alloc)).into_vec();
    let place = submitters
        .iter()
        .position(|s| s.user.as_str() == user.as_str());
    let Some(place) = place else {
        return Err(bad_form(case));
    };
    if let Err(Memory) = submitters[place].jobs.push(request) {
        return Err(CaseError::Memory);
    }
    snapshot.submitters = Seq::from_vec(submitters);
    Ok(())
}

/// Adds a slot: `SLOT NAME CLAIM AD`, perhaps with its holder's `USER EFFECTIVE RANK`.
pub(crate) fn add_offer(
    alloc: Global,
    case: Case<'_>,
    snapshot: &mut Snapshot,
) -> Result<(), CaseError> {
    let fields = case.all_fields(alloc)?;
    let offer = match fields.as_slice() {
        [slot, name, claim, ad] => offer_of(alloc, case, slot, name, claim, ad, None)?,
        [slot, name, claim, ad, user, effective, rank] => {
            let holder = Holder {
                user: text_of(alloc, case, user)?,
                effective: case.natural(effective)?,
                rank: case.integer(rank)?,
            };
            offer_of(alloc, case, slot, name, claim, ad, Some(holder))?
        }
        _ => return Err(CaseError::Fields { line: case.line }),
    };
    match snapshot.slots.push(offer) {
        Ok(()) => Ok(()),
        Err(Memory) => Err(CaseError::Memory),
    }
}

fn offer_of(
    alloc: Global,
    case: Case<'_>,
    slot: &str,
    name: &str,
    claim: &str,
    ad: &str,
    holder: Option<Holder>,
) -> Result<Offer, CaseError> {
    Ok(Offer {
        slot: slot_of(case, slot)?,
        name: text_of(alloc, case, name)?,
        claim: claim_of(case, claim)?,
        ad: ad_of(alloc, case, ad)?,
        holder,
    })
}
