//! What links reach.

ghost use Rattle.std.specs.Prelude.{◌≡◌, ◌↔◌, ◌++◌, List, ℕ, true, IfOk, OnOk};
ghost use Rattle.auto_cluster.specs.Links as links;
ghost use Rattle.auto_cluster.specs.Significant.{Reach, is_first_name};

use crate::links::Link;
use ad_value::names::matching::{RANK, REQUIREMENTS};
use ad_value::{Copied, Memory, Text, same_name};
use std::alloc::Global;

// Adds where the links from a name lead.
fn add_ends(alloc: Global, name: &str, list: &[Link], pending: &mut Vec<Text>) -> Result<(), Memory>
    ensures { OnOk result (
        pending.new.items ≡ pending.old.items ++ links.ends_from name.now list.now) }
{
    for link in list {
        if same_name(name, link.from.as_str()) {
            let end = link.to.copy(alloc)?;
            pending.push(end)?;
        }
    }
    Ok(())
}

// Takes the links from a name out.
fn keep_beside(name: &str, list: &mut Vec<Link>)
    ensures { list.new.items ≡ links.links_beside name.now list.old.items }
{
    list.retain(|link| !same_name(name, link.from.as_str()));
}

fn first_names(alloc: Global) -> Result<Vec<Text>, Memory>
    ensures { IfOk result (λ xs. xs.items ≡ links.first_names) }
{
    let mut names = Vec::with_capacity(alloc, 2)?;
    let requirements = Text::from_str(alloc, REQUIREMENTS)?;
    names.push(requirements)?;
    let rank = Text::from_str(alloc, RANK)?;
    names.push(rank)?;
    Ok(names)
}

// The names that links reach from Requirements and Rank.
pub(crate) fn reached_names(alloc: Global, list: Vec<Link>) -> Result<Vec<Text>, Memory>
    ensures { IfOk result (λ xs. (x : List ℕ) → (links.is_among xs.items x ≡ true)
        ↔ Reach is_first_name (links.is_linked list.items) x) }
{
    let mut list = list;
    let mut pending = first_names(alloc)?;
    let mut reached = Vec::new(alloc);
    while let Some(name) = pending.pop() {
        add_ends(alloc, name.as_str(), &list, &mut pending)?;
        keep_beside(name.as_str(), &mut list);
        reached.push(name)?;
    }
    Ok(reached)
}
