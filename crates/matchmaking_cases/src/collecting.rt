use crate::readers::{slot_of, text_of};
use ad_tree::{Ad, Expr, SetError};
use ad_value::{Memory, Text, Value};
use cases::{Case, CaseError, escape};
use claim_id::{Pair, SlotId};
use matchmaker::{Collector, CollectorError};
use pool_mail::SlotAd;
use std::alloc::{AllocError, Global};
use std::fmt::Write;

/// A collector without ads, of the lifetime of a case.
pub(crate) fn open_collector(alloc: Global, case: Case<'_>) -> Result<Collector, CaseError> {
    let lifetime = case.natural(case.one_field()?)?;
    Ok(Collector::new(alloc, lifetime))
}

/// Does what a case asks of the collector.
pub(crate) fn answer_collector(
    alloc: Global,
    case: Case<'_>,
    collector: &mut Collector,
    out: &mut String,
) -> Result<(), CaseError> {
    match case.kind {
        "update" => answer_update(alloc, case, collector, out),
        "update-many" => answer_update_many(alloc, case, collector, out),
        "forget" => answer_forget(case, collector, out),
        "offered" => answer_offered(alloc, case, collector, out),
        _ => Err(CaseError::Kind { line: case.line }),
    }
}

/// Lets the collector clear its ads at the reading of a case.
pub(crate) fn expire_ads(case: Case<'_>, collector: &mut Collector) -> Result<(), CaseError> {
    let now = case.natural(case.one_field()?)?;
    collector.expire(now);
    Ok(())
}

fn answer_update(
    alloc: Global,
    case: Case<'_>,
    collector: &mut Collector,
    out: &mut String,
) -> Result<(), CaseError> {
    let (slot, name, mark, now) = case.four_fields()?;
    let name = text_of(alloc, case, name)?;
    let ad = marked_ad(alloc, case, slot_of(case, slot)?, name, mark)?;
    let outcome = collector.update(ad, case.natural(now)?);
    Ok(write_outcome(outcome, out)?)
}

// Updates the slots whose names are a prefix and a number, up to the first that is refused.
fn answer_update_many(
    alloc: Global,
    case: Case<'_>,
    collector: &mut Collector,
    out: &mut String,
) -> Result<(), CaseError> {
    let fields = case.all_fields(alloc)?;
    let [prefix, first, last, mark, now] = fields.as_slice() else {
        return Err(CaseError::Fields { line: case.line });
    };
    let now = case.natural(now)?;
    for number in case.natural(first)?..=case.natural(last)? {
        let Ok(slot) = u16::try_from(number) else {
            return Err(CaseError::Number { line: case.line });
        };
        let slot = SlotId { machine: 0, slot };
        let name = Text::from(format!(in alloc; "{prefix}{number}")?);
        let ad = marked_ad(alloc, case, slot, name, mark)?;
        if let Err(error) = collector.update(ad, now) {
            write_outcome(Err(error), out)?;
            return Ok(write!(out, "\t{number}")?);
        }
    }
    Ok(out.push_str("ok")?)
}

fn answer_forget(
    case: Case<'_>,
    collector: &mut Collector,
    out: &mut String,
) -> Result<(), CaseError> {
    let slot = slot_of(case, case.one_field()?)?;
    let answer = if collector.forget(slot) { "yes" } else { "no" };
    Ok(out.push_str(answer)?)
}

fn answer_offered(
    alloc: Global,
    case: Case<'_>,
    collector: &Collector,
    out: &mut String,
) -> Result<(), CaseError> {
    let now = case.natural(case.one_field()?)?;
    let Ok(ads) = collector.offered(alloc, now) else {
        return Err(CaseError::Memory);
    };
    out.push_str("ok")?;
    for ad in ads.as_slice() {
        write_marked(ad, out)?;
    }
    Ok(())
}

const MARK: &str = "Mark";

// A slot's ad that is known again by its mark.
fn marked_ad(
    alloc: Global,
    case: Case<'_>,
    slot: SlotId,
    name: Text,
    mark: &str,
) -> Result<SlotAd, CaseError> {
    let mark = case.integer(mark)?;
    let mut ad = Ad::new(alloc);
    let value = Expr::Lit(Value::Int(mark));
    if let Err(SetError::Memory) = ad.set(alloc, MARK, value) {
        return Err(CaseError::Memory);
    }
    Ok(SlotAd {
        slot,
        name,
        claim: None,
        pair: Pair::UnclaimedIdle,
        user: None,
        rank: 0,
        at: 0,
        ad,
    })
}

fn write_marked(ad: &SlotAd, out: &mut String) -> Result<(), AllocError> {
    out.push('\t')?;
    escape(ad.name.as_str(), out)?;
    if let Some(Expr::Lit(Value::Int(mark))) = ad.ad.get(MARK) {
        write!(out, "\t{mark}")?;
    }
    Ok(())
}

fn write_outcome(outcome: Result<(), CollectorError>, out: &mut String) -> Result<(), AllocError> {
    match outcome {
        Ok(()) => out.push_str("ok"),
        Err(CollectorError::Full) => out.push_str("Full"),
        Err(CollectorError::Memory) => Err(AllocError),
    }
}
