use ad_parse::parse_ad;
use ad_tree::{Ad, Expr};
use ad_value::names::slot::{SLOT_ID, START};
use ad_value::{Copied, Text, Value};
use anyhow::Result;
use claim_id::{ClaimId, ClaimNo, SlotId};
use matchmaker::{Offer, OfferList};
use std::alloc::Global;

// An ad as that of a configured slot.
const SLOT: &str = "\
MyType = \"Machine\"
Machine = \"m1\"
Name = \"slot@m1\"
SlotID = 0
OpSys = \"LINUX\"
Arch = \"X86_64\"
Cpus = 1
Memory = 1000000
Disk = 1000000
Start = TRUE
Requirements = START
Rank = 0
";

/// So many slots, of which every other one starts no job.
pub(crate) fn offers(alloc: Global, count: u16) -> Result<OfferList> {
    let base = parse_ad(alloc, SLOT)?;
    let mut list = OfferList::new(alloc);
    for slot in 1..=count {
        list.push(offer(alloc, &base, slot)?)?;
    }
    Ok(list)
}

fn offer(alloc: Global, base: &Ad, slot: u16) -> Result<Offer> {
    let id = SlotId { machine: 0, slot };
    Ok(Offer {
        slot: id,
        name: Text::from(format!(in alloc; "slot{slot}@m1")?),
        claim: ClaimId {
            no: ClaimNo {
                slot: id,
                boot: 1,
                seq: 1,
            },
            secret: u64::from(slot),
        },
        ad: slot_ad(alloc, base, slot)?,
        holder: None,
    })
}

fn slot_ad(alloc: Global, base: &Ad, slot: u16) -> Result<Ad> {
    let mut ad = base.copy(alloc)?;
    ad.set(alloc, SLOT_ID, Expr::Lit(Value::Int(i64::from(slot))))?;
    ad.set(alloc, START, Expr::Lit(Value::Bool(slot & 1 == 1)))?;
    Ok(ad)
}
