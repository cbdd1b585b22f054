use crate::error::TextError;
use ad_parse::{AdError, parse_ad, print_expr};
use ad_tree::{Ad, Expr};
use cases::escape;
use std::alloc::{AllocError, Global};
use std::fmt::Write;

/// The ad that a text says, an attribute a line. Computes in O(bytes).
pub fn read_ad(alloc: Global, text: &str) -> Result<Ad, TextError> {
    match parse_ad(alloc, text) {
        Ok(ad) => Ok(ad),
        Err(AdError::Memory) => Err(TextError::Memory),
        Err(_) => Err(TextError::Form),
    }
}

/// Appends an ad as a part of a field: `Name = expression` and a newline for each attribute, in
/// order, with the canonical texts of expressions. Computes in O(bytes).
pub fn write_ad(alloc: Global, ad: &Ad, out: &mut String) -> Result<(), AllocError> {
    for place in 0..ad.len() {
        if let Some((name, expr)) = ad.attribute(place) {
            write_attribute(alloc, name, expr, out)?;
        }
    }
    Ok(())
}

fn write_attribute(
    alloc: Global,
    name: &str,
    expr: &Expr,
    out: &mut String,
) -> Result<(), AllocError> {
    match print_expr(alloc, expr) {
        Ok(text) => write_line(name, text.as_str(), out),
        Err(_) => Err(AllocError),
    }
}

fn write_line(name: &str, text: &str, out: &mut String) -> Result<(), AllocError> {
    write!(out, "{name} = ")?;
    escape(text, out)?;
    out.push_str("\\n")
}
