//! The significant attributes of a job.

ghost use Rattle.std.specs.Prelude.{◌≡◌, List, filter, slice_get, IfOk};
ghost use Rattle.ad_tree.specs.Ad.{Attributes};
ghost use Rattle.auto_cluster.specs.Clustering.{AreLinksOf};
ghost use Rattle.auto_cluster.specs.Links as links;
ghost use Rattle.auto_cluster.specs.Significant.{IsSignificantPart};

use crate::links::{Link, copy_links};
use crate::reaching::reached_names;
use crate::references::add_ad;
use ad_tree::Ad;
use ad_value::{Copied, Memory, Text, same_name};
use std::alloc::Global;

fn is_among(names: &[Text], name: &str) -> bool
    ensures { result ≡ links.is_among names.now name.now }
{
    names.iter().any(|n| same_name(name, n.as_str()))
}

// Takes the attribute at a place of the job out of the part where its name is not among those.
fn keep_named(names: &[Text], job: &Ad, place: usize, part: &mut Ad)
    ensures { part.new ≡ links.kept_named names.now part.old (slice_get job.now place) }
{
    if let Some((name, _)) = job.attribute(place) {
        if !is_among(names, name) {
            part.remove(name);
        }
    }
}

// The attributes of a job whose names are among those.
fn attributes_named(alloc: Global, names: &[Text], job: &Ad) -> Result<Ad, Memory>
    ensures { IfOk result (λ part.
        part ≡ filter (λ a. links.is_among names.now a.0) job.now) }
{
    let mut part = job.copy(alloc)?;
    for place in 0..job.len() {
        keep_named(names, job, place, &mut part);
    }
    Ok(part)
}

// The significant attributes of a job, by the links of the slots.
pub(crate) fn part_of(alloc: Global, slot_links: &[Link], job: &Ad) -> Result<Ad, Memory>
    ensures { (slots : List Attributes) → AreLinksOf slots slot_links.now
        → IfOk result (IsSignificantPart slots job.now) }
{
    let mut list = copy_links(alloc, slot_links)?;
    add_ad(alloc, job, &mut list)?;
    let names = reached_names(alloc, list)?;
    let part = attributes_named(alloc, names.as_slice(), job)?;
    Ok(part)
}
