ghost use Rattle.std.specs.Prelude.{◌≡◌, ◌<◌};
ghost use Rattle.matchmaker.specs.Snapshots.{IsSnapshot};

use crate::readers::bad_form;
use ad_eval::Steps;
use ad_value::Memory;
use cases::{Case, CaseError};
use matchmaker::{Snapshot, plain_cycle};
use negotiate::cycle;
use pool_mail::{Match, MatchList};
use std::alloc::Global;
use std::fmt::Write;
use std::marker::Brand;
use std::sync::ledger::{Blank, Ledger};

/// The matches of a cycle of the snapshot, or that its two bodies differ.
pub(crate) fn answer_cycle(
    alloc: Global,
    case: Case<'_>,
    snapshot: &Snapshot,
    out: &mut String,
) -> Result<(), CaseError> {
    if !snapshot.is_negotiable() {
        return Err(bad_form(case));
    }
    let (Ok(plain), Ok(quick)) = (
        plain_matches(alloc, snapshot),
        quick_matches(alloc, snapshot),
    ) else {
        return Err(CaseError::Memory);
    };
    if !are_same(plain.as_slice(), quick.as_slice()) {
        return Ok(out.push_str("differs")?);
    }
    write_matches(alloc, quick.as_slice(), out)
}

// Whether both bodies made the same matches in the same order.
fn are_same(plain: &[Match], quick: &[Match]) -> bool {
    plain.len() == quick.len() && plain.iter().zip(quick.iter()).all(|(p, q)| p == q)
}

// The matches where each request looks at every slot.
fn plain_matches(alloc: Global, snapshot: &Snapshot) -> Result<MatchList, Memory>
    requires { IsSnapshot snapshot.now }
{
    plain_counted::<Brand>(alloc, snapshot, Blank::new(1))
}

// The matches where one request of each autocluster is judged.
fn quick_matches(alloc: Global, snapshot: &Snapshot) -> Result<MatchList, Memory>
    requires { IsSnapshot snapshot.now }
{
    quick_counted::<Brand>(alloc, snapshot, Blank::new(1))
}

fn plain_counted<L: Ledger>(
    alloc: Global,
    snapshot: &Snapshot,
    blank: Blank,
) -> Result<MatchList, Memory>
    requires name { blank.name ≡ L.name }
    requires parts { blank.parts ≡ L.parts }
    requires some { 0 < blank.parts }
    requires snapshot { IsSnapshot snapshot.now }
{
    let mut steps = Steps::<L>::new(blank);
    plain_cycle(alloc, snapshot, &mut steps)
}

fn quick_counted<L: Ledger>(
    alloc: Global,
    snapshot: &Snapshot,
    blank: Blank,
) -> Result<MatchList, Memory>
    requires name { blank.name ≡ L.name }
    requires parts { blank.parts ≡ L.parts }
    requires some { 0 < blank.parts }
    requires snapshot { IsSnapshot snapshot.now }
{
    let mut steps = Steps::<L>::new(blank);
    cycle(alloc, snapshot, &mut steps)
}

fn write_matches(alloc: Global, matches: &[Match], out: &mut String) -> Result<(), CaseError> {
    out.push_str("ok")?;
    for one in matches {
        write_match(alloc, one, out)?;
    }
    Ok(())
}

// The job, the claim, and whether it is by priority.
fn write_match(alloc: Global, one: &Match, out: &mut String) -> Result<(), CaseError> {
    let (Ok(job), Ok(claim)) = (one.job.print(alloc), one.claim.print(alloc)) else {
        return Err(CaseError::Memory);
    };
    let how = if one.by_priority {
        "by_priority"
    } else {
        "plain"
    };
    Ok(write!(out, "\t{job} {claim} {how}")?)
}
