//! To which names expressions refer.

ghost use Rattle.std.specs.Prelude.{IfOk, OnOk, slice_get};
ghost use Rattle.auto_cluster.specs.Clustering.{AreLinksOf};
ghost use Rattle.ad_tree.specs.Tree.{tree, trees, trees_of, rest, rests, rests_of};
ghost use Rattle.auto_cluster.specs.Links.{HasAlso, HasLinks, HasOf};
ghost use Rattle.auto_cluster.specs.Significant.{refers_to, trees_refer_to, rests_refer_to, leads_to};

use crate::links::{Link, add_link};
use ad_tree::{Ad, AdList, Expr, ExprList, RestList};
use ad_value::Memory;
use std::alloc::Global;

// Adds links from a name to those that an expression refers to.
#[cycle(refer)]
fn add_references(
    alloc: Global,
    from: &str,
    expr: &Expr,
    list: &mut Vec<Link>,
) -> Result<(), Memory>
    ensures { OnOk result (HasAlso
        list.old.items list.new.items from.now (refers_to (tree expr.now))) }
{
    match expr {
        Expr::Lit(_) => Ok(()),
        Expr::Ref { scope: _, name } => add_link(alloc, list, from, name.as_str()),
        Expr::Unary { op: _, arg } => add_references(alloc, from, arg, list),
        Expr::Chain { first, rest } => {
            add_references(alloc, from, first, list)?;
            add_rests(alloc, from, rest, list)
        }
        Expr::Cond { test, yes, no } => {
            add_references(alloc, from, test, list)?;
            add_references(alloc, from, yes, list)?;
            add_references(alloc, from, no, list)
        }
        Expr::OrElse { first, other } => {
            add_references(alloc, from, first, list)?;
            add_references(alloc, from, other, list)
        }
        Expr::Call { name: _, args } => add_all(alloc, from, args, list),
        Expr::Items(items) => add_all(alloc, from, items, list),
    }
}

// The same of the expressions of a list.
#[cycle(refer)]
fn add_all(alloc: Global, from: &str, exprs: &ExprList, list: &mut Vec<Link>) -> Result<(), Memory>
    ensures { OnOk result (HasAlso
        list.old.items list.new.items from.now (trees_refer_to (trees_of (trees exprs.now)))) }
{
    for item in &exprs.items {
        add_references(alloc, from, item, list)?;
    }
    Ok(())
}

// The same of the operands of a chain.
#[cycle(refer)]
fn add_rests(alloc: Global, from: &str, rest: &RestList, list: &mut Vec<Link>) -> Result<(), Memory>
    ensures { OnOk result (HasAlso
        list.old.items list.new.items from.now (rests_refer_to (rests_of (rests rest.now)))) }
{
    for step in &rest.items {
        add_references(alloc, from, &step.arg, list)?;
    }
    Ok(())
}

// Adds the links of the attribute at a place of an ad.
fn add_attribute(alloc: Global, ad: &Ad, place: usize, list: &mut Vec<Link>) -> Result<(), Memory>
    ensures { OnOk result (HasOf
        list.old.items list.new.items (slice_get ad.now place)) }
{
    match ad.attribute(place) {
        Some((name, expr)) => add_references(alloc, name, expr, list),
        None => Ok(()),
    }
}

// Adds the links of an ad.
pub(crate) fn add_ad(alloc: Global, ad: &Ad, list: &mut Vec<Link>) -> Result<(), Memory>
    ensures { OnOk result (HasLinks
        list.old.items list.new.items (λ y z. leads_to y z ad.now)) }
{
    for place in 0..ad.len() {
        add_attribute(alloc, ad, place, list)?;
    }
    Ok(())
}

// The links of ads.
pub(crate) fn links_of(alloc: Global, ads: &AdList) -> Result<Vec<Link>, Memory>
    ensures { IfOk result (λ list. AreLinksOf ads.now list.items) }
{
    let mut list = Vec::new(alloc);
    for ad in ads.as_slice() {
        add_ad(alloc, ad, &mut list)?;
    }
    Ok(list)
}
