use ad_tree::{Ad, AdList, Expr, Scope};
use ad_value::names::job::CMD;
use ad_value::names::matching::REQUIREMENTS;
use ad_value::names::slot::START;
use ad_value::{Copied, Memory, Text, Value};
use claim_id::SlotId;
use std::alloc::Global;
use thin_pool::{Course, PoolSlot, PoolSlotList, are_numbered_once};

// What an attribute is set to.
#[derive(Clone, Copy)]
enum Given<'a> {
    Text(&'a str),
    Truth(bool),
    Name(&'a str),
}

/// A pool of so many slots of machine 0, which start any job, or none. Without slots there is no
/// pool.
pub(crate) fn open_pool(alloc: Global, count: u16, start: bool) -> Result<Option<Course>, Memory> {
    let slots = slots(alloc, count, start)?;
    if slots.is_empty() || !are_numbered_once(slots.as_slice()) {
        return Ok(None);
    }
    Ok(Some(Course::open(alloc, slots)?))
}

fn slots(alloc: Global, count: u16, start: bool) -> Result<PoolSlotList, Memory> {
    let mut slots = PoolSlotList::new(alloc);
    for number in 0..count {
        slots.push(slot(alloc, number + 1, start)?)?;
    }
    Ok(slots)
}

fn slot(alloc: Global, slot: u16, start: bool) -> Result<PoolSlot, Memory> {
    let rows = [
        (START, Given::Truth(start)),
        (REQUIREMENTS, Given::Name(START)),
    ];
    Ok(PoolSlot {
        slot: SlotId { machine: 0, slot },
        name: Text::from_str(alloc, "slot@m1")?,
        ad: ad_of(alloc, &rows)?,
    })
}

/// The ad of a job that runs a program.
pub(crate) fn job_ad(alloc: Global, program: &str, requirements: bool) -> Result<Ad, Memory> {
    let rows = [
        (CMD, Given::Text(program)),
        (REQUIREMENTS, Given::Truth(requirements)),
    ];
    ad_of(alloc, &rows)
}

/// The ads of so many equal jobs.
pub(crate) fn job_ads(alloc: Global, count: u16, requirements: bool) -> Result<AdList, Memory> {
    let mut ads = AdList::new(alloc);
    for _ in 0..count {
        ads.push(job_ad(alloc, "/bin/true", requirements)?)?;
    }
    Ok(ads)
}

fn ad_of(alloc: Global, rows: &[(&str, Given<'_>)]) -> Result<Ad, Memory> {
    let mut ad = Ad::new(alloc);
    for (name, given) in rows {
        if ad.set(alloc, name, expr_of(alloc, *given)?).is_err() {
            return Err(Memory);
        }
    }
    Ok(ad)
}

fn expr_of(alloc: Global, given: Given<'_>) -> Result<Expr, Memory> {
    match given {
        Given::Text(text) => Ok(Expr::Lit(Value::Str(Text::from_str(alloc, text)?))),
        Given::Truth(truth) => Ok(Expr::Lit(Value::Bool(truth))),
        Given::Name(name) => Ok(Expr::Ref {
            scope: Scope::Bare,
            name: Text::from_str(alloc, name)?,
        }),
    }
}
