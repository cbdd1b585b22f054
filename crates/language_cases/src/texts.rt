use ad_parse::{AdError, ParseError, parse_ad, parse_expr, print_expr};
use ad_tree::{Ad, Expr};
use cases::{Case, CaseError, escape};
use std::alloc::{AllocError, Global};
use std::fmt::Write;

/// The canonical text of an expression, or why its text is refused.
pub(crate) fn answer_expr(
    alloc: Global,
    case: Case<'_>,
    out: &mut String,
) -> Result<(), CaseError> {
    let text = case.text(alloc, case.one_field()?)?;
    write_expr(alloc, text.as_str(), out)?;
    Ok(())
}

fn write_expr(alloc: Global, text: &str, out: &mut String) -> Result<(), AllocError> {
    match parse_expr(alloc, text) {
        Ok(expr) => {
            out.push_str("ok\t")?;
            write_canonical(alloc, &expr, out)
        }
        Err(error) => write_refusal(error, out),
    }
}

fn write_canonical(alloc: Global, expr: &Expr, out: &mut String) -> Result<(), AllocError> {
    match print_expr(alloc, expr) {
        Ok(text) => escape(text.as_str(), out),
        Err(_) => Err(AllocError),
    }
}

fn write_refusal(error: ParseError, out: &mut String) -> Result<(), AllocError> {
    match error {
        ParseError::TooLong { length } => write!(out, "TooLong\t{length}"),
        ParseError::Real { at } => write!(out, "Real\t{at}"),
        ParseError::Range { at } => write!(out, "Range\t{at}"),
        ParseError::TooDeep { at } => write!(out, "TooDeep\t{at}"),
        ParseError::Syntax { at } => write!(out, "Syntax\t{at}"),
        ParseError::Memory => Err(AllocError),
    }
}

/// The attributes of an ad, or why its text is refused.
pub(crate) fn answer_ad(alloc: Global, case: Case<'_>, out: &mut String) -> Result<(), CaseError> {
    let text = case.text(alloc, case.one_field()?)?;
    write_ad(alloc, text.as_str(), out)?;
    Ok(())
}

fn write_ad(alloc: Global, text: &str, out: &mut String) -> Result<(), AllocError> {
    match parse_ad(alloc, text) {
        Ok(ad) => {
            out.push_str("ok")?;
            write_attributes(alloc, &ad, out)
        }
        Err(error) => write_ad_refusal(error, out),
    }
}

/// Appends a field for each attribute of an ad.
pub(crate) fn write_attributes(alloc: Global, ad: &Ad, out: &mut String) -> Result<(), AllocError> {
    for place in 0..ad.len() {
        if let Some((name, expr)) = ad.attribute(place) {
            write!(out, "\t{name} = ")?;
            write_canonical(alloc, expr, out)?;
        }
    }
    Ok(())
}

fn write_ad_refusal(error: AdError, out: &mut String) -> Result<(), AllocError> {
    match error {
        AdError::BadLine { line } => write!(out, "BadLine\t{line}"),
        AdError::Expr { line, error } => {
            write!(out, "Expr\t{line}\t")?;
            write_refusal(error, out)
        }
        AdError::Full { line } => write!(out, "Full\t{line}"),
        AdError::Memory => Err(AllocError),
    }
}
