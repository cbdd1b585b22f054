// From a text to an ad.

ghost use Rattle.std.specs.Prelude.{◌≡◌, ◌≢◌, IfOk, IfErr, Ok, Err};
ghost use Rattle.std.specs.Option.{option_map};
ghost use Rattle.ad_tree.specs.Ad.{Attributes};
ghost use Rattle.ad_tree.specs.Tree.{tree};
ghost use Rattle.ad_parse.specs.declared.error.AdError.{AdError};
ghost use Rattle.ad_parse.specs.ExprText.{expression_at};
ghost use Rattle.ad_parse.specs.AdLines.{IsAdText, IsAdRefused};
ghost use Rattle.ad_parse.specs.AdText.{GivesAd, ad_at, with_line, with_expression, unless_refused, at_line, is_skipped, setting, setting_from, around_sign};

use crate::error::{AdError, ParseError};
use crate::expression::read_text;
use ad_token::{is_name, name_length, past_blanks, trimmed_text};
use ad_tree::{Ad, Expr, SetError};
use std::alloc::Global;

/// The ad that a text says, with one attribute, `Name = expression`, a line; lines of blanks alone
/// and lines that begin with `#` are skipped (HTCondor manual, "ClassAd syntax"). A later line of a
/// name replaces the expression of the earlier one. Computes in O(bytes of the text and of the
/// canonical texts) where names do not collide.
pub fn parse_ad(alloc: Global, text: &str) -> Result<Ad, AdError>
    // What is read is what the text says.
    ensures found { IfOk result (λ ad. IsAdText text.now ad) }
    // What a text says is read, unless memory runs out.
    ensures only { (ad : Attributes) → IsAdText text.now ad → GivesAd (λ a. a) result (Ok ad) }
    // A refusal has its line and its cause.
    ensures refused { IfErr result (λ f. f ≢ AdError.Memory → IsAdRefused text.now f) }
    // A text that has a cause is refused for it, unless memory runs out.
    ensures exact { (f : AdError) → IsAdRefused text.now f → GivesAd (λ a. a) result (Err f) }
{
    read_lines(alloc, text)
}

// The same, as a function of the text.
fn read_lines(alloc: Global, text: &str) -> Result<Ad, AdError>
    ensures { GivesAd (λ a. a) result (ad_at text.now) }
{
    let mut ad = Ad::new(alloc);
    let mut number = 1u32;
    for line in text.split('\n') {
        read_line(alloc, &mut ad, number, line)?;
        number = number.saturating_add(1);
    }
    Ok(ad)
}

// Takes a line into the ad.
fn read_line(alloc: Global, ad: &mut Ad, number: u32, line: &str) -> Result<(), AdError>
    ensures { GivesAd (λ _. ad.new) result (with_line number ad.old line.now) }
{
    if is_skipped(line) {
        return Ok(());
    }
    let Some((name, text)) = setting(line) else {
        return Err(AdError::BadLine { line: number });
    };
    read_setting(alloc, ad, number, name, text)
}

// Puts what the text says under the name.
fn read_setting(
    alloc: Global,
    ad: &mut Ad,
    number: u32,
    name: &str,
    text: &str,
) -> Result<(), AdError>
    ensures { GivesAd (λ _. ad.new) result (
        unless_refused
        (at_line number (expression_at text.now))
        (with_expression number ad.old name.now)) }
{
    let expr = read_expr(alloc, number, text)?;
    set_attribute(alloc, ad, number, name, expr)
}

// The expression that the text of a line says.
fn read_expr(alloc: Global, number: u32, text: &str) -> Result<Expr, AdError>
    ensures { GivesAd tree result (at_line number (expression_at text.now)) }
{
    match read_text(alloc, text) {
        Ok(expr) => Ok(expr),
        Err(ParseError::Memory) => Err(AdError::Memory),
        Err(error) => Err(AdError::Expr {
            line: number,
            error,
        }),
    }
}

// Puts the expression of a line under its name.
fn set_attribute(
    alloc: Global,
    ad: &mut Ad,
    number: u32,
    name: &str,
    expr: Expr,
) -> Result<(), AdError>
    ensures { GivesAd (λ _. ad.new) result (with_expression number ad.old name.now (tree expr)) }
{
    match ad.set(alloc, name, expr) {
        Ok(()) => Ok(()),
        Err(SetError::Full) => Err(AdError::Full { line: number }),
        Err(SetError::Memory) => Err(AdError::Memory),
    }
}

// Whether a line says nothing.
fn is_skipped(line: &str) -> bool
    ensures { result ≡ is_skipped line.now }
{
    line.starts_with('#') || past_blanks(line).is_empty()
}

// The name that a line sets, and the text of its expression.
fn setting(line: &str) -> Option<(&str, &str)>
    ensures { option_map (λ s. (s.0.now, s.1.now)) result ≡ setting line.now }
{
    setting_from(past_blanks(line))
}

#[tactic(auto, using(ad_token::proofs::Prefixes::name_boundary))]
fn setting_from(text: &str) -> Option<(&str, &str)>
    ensures { option_map (λ s. (s.0.now, s.1.now)) result ≡ setting_from text.now }
{
    let (name, after) = text.split_at(name_length(text.as_bytes()));
    around_sign(name, past_blanks(after))
}

#[tactic(auto, using(ad_token::proofs::Prefixes::past_first))]
fn around_sign<'a>(name: &'a str, after: &'a str) -> Option<(&'a str, &'a str)>
    ensures { option_map (λ s. (s.0.now, s.1.now)) result ≡ around_sign name.now after.now }
{
    if !is_name(name) || !after.starts_with('=') {
        return None;
    }
    Some((name, trimmed_text(&after[1..])))
}
