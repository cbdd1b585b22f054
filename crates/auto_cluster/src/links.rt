//! Which name leads to which: lists of links.

ghost use Rattle.std.specs.Prelude.{◌≡◌, ◌&&◌, IfOk, OnOk};
ghost use Rattle.ad_value.specs.Names.{same_name};
ghost use Rattle.auto_cluster.specs.Links as links;

use ad_value::{Copied, Memory, Text, same_name};
use std::alloc::Global;

/// That the expression of one name refers to another.
#[derive(Drop)]
pub struct Link {
    pub from: Text,
    pub to: Text,
}

// Whether there is such a link.
pub(crate) fn is_linked(list: &[Link], from: &str, to: &str) -> bool
    ensures { result ≡ links.is_linked list.now from.now to.now }
{
    list.iter().any(|l| same_name(from, l.from.as_str()) && same_name(to, l.to.as_str()))
}

// Adds a link where there is none such.
pub(crate) fn add_link(
    alloc: Global,
    list: &mut Vec<Link>,
    from: &str,
    to: &str,
) -> Result<(), Memory>
    ensures { OnOk result (links.HasAlso
        list.old.items list.new.items from.now (λ y. same_name y to.now)) }
{
    if is_linked(list, from, to) {
        return Ok(());
    }
    let link = link_of(alloc, from, to)?;
    list.push(link)?;
    Ok(())
}

fn link_of(alloc: Global, from: &str, to: &str) -> Result<Link, Memory>
    ensures { IfOk result (λ l. l ≡ record { from = from.now; to = to.now }) }
{
    Ok(Link {
        from: Text::from_str(alloc, from)?,
        to: Text::from_str(alloc, to)?,
    })
}

fn copy_of(alloc: Global, link: &Link) -> Result<Link, Memory>
    ensures { IfOk result (λ l. l ≡ link.now) }
{
    Ok(Link {
        from: link.from.copy(alloc)?,
        to: link.to.copy(alloc)?,
    })
}

// An equal list.
pub(crate) fn copy_links(alloc: Global, list: &[Link]) -> Result<Vec<Link>, Memory>
    ensures { IfOk result (λ ls. ls.items ≡ list.now) }
{
    let mut copies = Vec::with_capacity(alloc, list.len())?;
    for link in list {
        let copy = copy_of(alloc, link)?;
        copies.push(copy)?;
    }
    Ok(copies)
}
