use crate::macros::write_macro_error;
use ad_parse::print_expr;
use ad_tree::{Ad, AdList};
use cases::{Case, CaseError, escape};
use std::alloc::{AllocError, Global};
use std::fmt::Write;
use submit_file::{SubmitError, jobs};

/// The jobs of a submit file: `submit TEXT CLUSTER OWNER READING`.
pub(crate) fn answer_submit(
    alloc: Global,
    case: Case<'_>,
    out: &mut String,
) -> Result<(), CaseError> {
    let (text, cluster, owner, now) = case.four_fields()?;
    let text = case.text(alloc, text)?;
    let owner = case.text(alloc, owner)?;
    let now = case.natural(now)?;
    let (Ok(cluster), true) = (u32::try_from(case.natural(cluster)?), now < 1 << 63) else {
        return Err(CaseError::Number { line: case.line });
    };
    match jobs(alloc, text.as_str(), cluster, owner.as_str(), now) {
        Ok(ads) => write_ads(alloc, &ads, out)?,
        Err(error) => write_refusal(&error, out)?,
    }
    Ok(())
}

fn write_ads(alloc: Global, ads: &AdList, out: &mut String) -> Result<(), AllocError> {
    out.push_str("ok")?;
    for ad in ads.as_slice() {
        out.push('\t')?;
        write_ad(alloc, ad, out)?;
    }
    Ok(())
}

/// Appends the attributes of an ad, a line each.
pub(crate) fn write_ad(alloc: Global, ad: &Ad, out: &mut String) -> Result<(), AllocError> {
    for place in 0..ad.len() {
        if let Some((name, expr)) = ad.attribute(place) {
            let Ok(text) = print_expr(alloc, expr) else {
                return Err(AllocError);
            };
            write!(out, "{name} = ")?;
            escape(text.as_str(), out)?;
            out.push_str("\\n")?;
        }
    }
    Ok(())
}

fn write_refusal(error: &SubmitError, out: &mut String) -> Result<(), AllocError> {
    match error {
        SubmitError::BadLine { line } => write!(out, "BadLine\t{line}"),
        SubmitError::Unsupported { line } => write!(out, "Unsupported\t{line}"),
        SubmitError::Universe { line } => write!(out, "Universe\t{line}"),
        SubmitError::NoExecutable { line } => write!(out, "NoExecutable\t{line}"),
        SubmitError::BadExpr { line } => write!(out, "BadExpr\t{line}"),
        SubmitError::Count { line } => write!(out, "Count\t{line}"),
        SubmitError::Full { line } => write!(out, "Full\t{line}"),
        SubmitError::Macro { line, error } => {
            write!(out, "Macro\t{line}\t")?;
            write_macro_error(error, out)
        }
        SubmitError::NoQueue => out.push_str("NoQueue"),
        SubmitError::Memory => Err(AllocError),
    }
}
