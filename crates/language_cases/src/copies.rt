use crate::ads::bad_ad;
use crate::texts::write_attributes;
use ad_parse::{parse_ad, printed_size};
use ad_tree::{Ad, SetError};
use ad_value::Copied;
use cases::{Case, CaseError};
use std::alloc::{AllocError, Global};
use std::fmt::Write;

// Two copies of an ad.
#[derive(Drop)]
struct Copies {
    first: Ad,
    second: Ad,
}

/// The attributes of an ad and of two copies of it, after the first copy was changed:
/// `AD NAME MORE`. NAME is removed from the first copy, the second is a copy of that, and then the
/// first gets the attributes of MORE.
pub(crate) fn answer_copies(
    alloc: Global,
    case: Case<'_>,
    out: &mut String,
) -> Result<(), CaseError> {
    let (ad, name, more) = case.three_fields()?;
    let name = case.text(alloc, name)?;
    let ad = read_ad(alloc, case, ad)?;
    let more = read_ad(alloc, case, more)?;
    match copies_of(alloc, &ad, name.as_str(), &more) {
        Ok(copies) => Ok(write_copies(alloc, &ad, &copies, out)?),
        Err(error) => Err(bad_set(case, error)),
    }
}

/// How many bytes the names and canonical texts of an ad have.
pub(crate) fn answer_size(
    alloc: Global,
    case: Case<'_>,
    out: &mut String,
) -> Result<(), CaseError> {
    let ad = read_ad(alloc, case, case.one_field()?)?;
    let size = printed_size(&ad);
    Ok(write!(out, "ok\t{size}")?)
}

fn read_ad(alloc: Global, case: Case<'_>, field: &str) -> Result<Ad, CaseError> {
    let text = case.text(alloc, field)?;
    match parse_ad(alloc, text.as_str()) {
        Ok(ad) => Ok(ad),
        Err(error) => Err(bad_ad(case, error)),
    }
}

fn bad_set(case: Case<'_>, error: SetError) -> CaseError {
    match error {
        SetError::Memory => CaseError::Memory,
        SetError::Full => CaseError::Form { line: case.line },
    }
}

fn copies_of(alloc: Global, ad: &Ad, name: &str, more: &Ad) -> Result<Copies, SetError> {
    let mut first = ad.copy(alloc)?;
    first.remove(name);
    let second = first.copy(alloc)?;
    set_all(alloc, &mut first, more)?;
    Ok(Copies { first, second })
}

fn set_all(alloc: Global, ad: &mut Ad, more: &Ad) -> Result<(), SetError> {
    for place in 0..more.len() {
        if let Some((name, expr)) = more.attribute(place) {
            ad.set(alloc, name, expr.copy(alloc)?)?;
        }
    }
    Ok(())
}

fn write_copies(
    alloc: Global,
    ad: &Ad,
    copies: &Copies,
    out: &mut String,
) -> Result<(), AllocError> {
    out.push_str("ok")?;
    write_attributes(alloc, &copies.first, out)?;
    out.push_str("\t/")?;
    write_attributes(alloc, &copies.second, out)?;
    out.push_str("\t/")?;
    write_attributes(alloc, ad, out)
}
