use crate::readers::{bad_form, job_of, text_of};
use ad_tree::{Ad, AdList};
use ad_value::{Copied, Memory, Seq};
use auto_cluster::{Clusters, significant};
use cases::{Case, CaseError, escape};
use matchmaker::Snapshot;
use pool_mail::Request;
use std::alloc::Global;
use std::fmt::Write;

/// What a case asks of the autoclusters of the snapshot.
pub(crate) fn answer_clusters(
    alloc: Global,
    case: Case<'_>,
    snapshot: &Snapshot,
    out: &mut String,
) -> Result<(), CaseError> {
    match case.kind {
        "significant" => answer_significant(alloc, case, snapshot, out),
        "clusters" => answer_numbers(alloc, case, snapshot, out),
        _ => answer_judgements(alloc, snapshot, out),
    }
}

fn slot_ads(alloc: Global, snapshot: &Snapshot) -> Result<AdList, Memory> {
    let mut ads = Vec::with_capacity(alloc, snapshot.slots.len())?;
    for slot in snapshot.slots.as_slice() {
        let ad = slot.ad.copy(alloc)?;
        ads.push(ad)?;
    }
    Ok(Seq::from_vec(ads))
}

fn clusters_of(alloc: Global, snapshot: &Snapshot) -> Result<Clusters, CaseError> {
    let Ok(ads) = slot_ads(alloc, snapshot) else {
        return Err(CaseError::Memory);
    };
    match Clusters::new(alloc, ads) {
        Ok(clusters) => Ok(clusters),
        Err(Memory) => Err(CaseError::Memory),
    }
}

// The ad of the request of a job.
fn ad_of_job<'a>(case: Case<'_>, snapshot: &'a Snapshot, job: &str) -> Result<&'a Ad, CaseError> {
    let job = job_of(case, job)?;
    for submitter in snapshot.submitters.as_slice() {
        for request in submitter.jobs.as_slice() {
            if request.job == job {
                return Ok(&request.ad);
            }
        }
    }
    Err(bad_form(case))
}

// The names of a request's significant attributes.
fn answer_significant(
    alloc: Global,
    case: Case<'_>,
    snapshot: &Snapshot,
    out: &mut String,
) -> Result<(), CaseError> {
    let ad = ad_of_job(case, snapshot, case.one_field()?)?;
    let Ok(ads) = slot_ads(alloc, snapshot) else {
        return Err(CaseError::Memory);
    };
    let Ok(names) = significant(alloc, &ads, ad) else {
        return Err(CaseError::Memory);
    };
    out.push_str("ok")?;
    for name in names.as_slice() {
        out.push('\t')?;
        escape(name.as_str(), out)?;
    }
    Ok(())
}

// The numbers of the autoclusters of a user's requests.
fn answer_numbers(
    alloc: Global,
    case: Case<'_>,
    snapshot: &Snapshot,
    out: &mut String,
) -> Result<(), CaseError> {
    let user = text_of(alloc, case, case.one_field()?)?;
    let mut clusters = clusters_of(alloc, snapshot)?;
    out.push_str("ok")?;
    for submitter in snapshot.submitters.as_slice() {
        if submitter.user.as_str() == user.as_str() {
            write_numbers(alloc, submitter.jobs.as_slice(), &mut clusters, out)?;
        }
    }
    Ok(())
}

fn write_numbers(
    alloc: Global,
    requests: &[Request],
    clusters: &mut Clusters,
    out: &mut String,
) -> Result<(), CaseError> {
    for request in requests {
        let Ok(number) = clusters.cluster_of(alloc, &request.ad) else {
            return Err(CaseError::Memory);
        };
        write!(out, "\t{number}")?;
    }
    Ok(())
}

// The autoclusters, counted for each submitter, times the slots.
fn answer_judgements(
    alloc: Global,
    snapshot: &Snapshot,
    out: &mut String,
) -> Result<(), CaseError> {
    let mut clusters = clusters_of(alloc, snapshot)?;
    let mut count: u64 = 0;
    for submitter in snapshot.submitters.as_slice() {
        clusters.clear();
        count_clusters(alloc, submitter.jobs.as_slice(), &mut clusters)?;
        count = count.saturating_add(clusters.len() as u64);
    }
    let most = count.saturating_mul(snapshot.slots.len() as u64);
    Ok(write!(out, "ok\t{most}")?)
}

fn count_clusters(
    alloc: Global,
    requests: &[Request],
    clusters: &mut Clusters,
) -> Result<(), CaseError> {
    for request in requests {
        if let Err(Memory) = clusters.cluster_of(alloc, &request.ad) {
            return Err(CaseError::Memory);
        }
    }
    Ok(())
}
