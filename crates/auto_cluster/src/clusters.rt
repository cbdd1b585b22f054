ghost use Rattle.std.specs.Prelude.{◌≡◌, ◌≢◌, ◌++◌, ◌∷◌, [], Some, length, slice_get, MatchOption, IfOk, OnOk, OnErr};
ghost use Rattle.std.specs.List.{All};
ghost use Rattle.ad_tree.specs.Ad.{names};
ghost use Rattle.auto_cluster.specs.Clustering.{IsNumbered, AreClusters};
ghost use Rattle.auto_cluster.specs.Links.{name_of};
ghost use Rattle.auto_cluster.specs.Significant.{Significant};

use crate::finding::{Places, part_digest, place_among, places_under, put_under};
use crate::links::Link;
use crate::parts::part_of;
use crate::references::links_of;
use ad_tree::{Ad, AdList};
use ad_value::{Memory, Seq, Text, TextList};
use std::alloc::Global;
use std::collections::HashMap;
use std::marker::Model;

/// The autoclusters of one submitter's jobs over a list of slots (HTCondor manual, autoclusters).
/// Contracts see a `Clustering`.
pub struct Clusters {
    slots: AdList,
    links: Vec<Link>,
    parts: Vec<Ad>,
    places: Places,
}

impl Drop for Clusters {
    fn drop(self) {
        let Clusters {
            slots: _slots,
            links: _links,
            parts: _parts,
            places: _places,
        } = self;
    }
}

impl Model for Clusters {
    ghost use Rattle.auto_cluster.specs.Clustering.{Clustering, AreClusters, AreLinksOf};
    ghost use Rattle.auto_cluster.specs.Finding.{AreFoundBy};
    ghost use Rattle.std.specs.Coded.{codes};
    ghost use Rattle.ad_tree.specs.TreeCode.{attributes_code};

    ghost Value = { Clustering };

    ghost coded = { Prim.hlevel (codes, attributes_code) };

    ghost view = { λ c. record { slots = c.slots; parts = c.parts.items } };

    ghost invariant = { λ c. AreClusters c.parts.items
        × AreLinksOf c.slots c.links.items
        × AreFoundBy c.places c.parts.items };
}

impl Clusters {
    /// No autoclusters yet. Computes in O(size of the slots' expressions × links), where links are
    /// the pairs of names of which one's expression refers to the other.
    pub fn new(alloc: Global, slots: AdList) -> Result<Clusters, Memory>
        ensures { IfOk result (λ c. c ≡ record { slots = slots; parts = [] }) }
    {
        let links = links_of(alloc, &slots)?;
        Ok(Clusters {
            slots,
            links,
            parts: Vec::new(alloc),
            places: HashMap::new(alloc),
        })
    }

    /// How many autoclusters there are. Computes in O(1).
    pub fn len(&self) -> usize
        ensures { result ≡ length self.now.parts }
    {
        self.parts.len()
    }

    /// Forgets the autoclusters, and keeps the slots. Takes no memory.
    pub fn clear(&mut self)
        ensures { self.new ≡ record { slots = self.old.slots; parts = [] } }
    {
        self.parts.clear();
        self.places.clear();
    }

    /// The number of a job's autocluster: jobs have one number exactly where their significant
    /// attributes are equal, names as they are spelled and expressions, in order. Numbers go from 0
    /// in the order of the first calls. Computes in O(references of the job × links + links²), and
    /// in O(size of the significant attributes) where no other autocluster's have the same digest;
    /// else the same again for each that have. An error leaves all as it was.
    pub fn cluster_of(&mut self, alloc: Global, job: &Ad) -> Result<u32, Memory>
        ensures number { IfOk result (IsNumbered self.old self.new job.now) }
        ensures apart { AreClusters self.new.parts }
        ensures same { OnErr result (self.new ≡ self.old) }
    {
        let part = part_of(alloc, self.links.as_slice(), job)?;
        let place = self.place_of(&part);
        if let Some(place) = place {
            return number_of(place);
        }
        let number = number_of(self.len())?;
        self.put(alloc, part)?;
        Ok(number)
    }

    // The number of the autocluster of those significant attributes.
    fn place_of(&self, part: &Ad) -> Option<usize>
        ensures { MatchOption result
            (All (λ p. p ≢ part.now) self.now.parts)
            (λ i. slice_get self.now.parts i ≡ Some part.now) }
    {
        let places = places_under(&self.places, part_digest(part));
        place_among(&self.parts, places, part)
    }

    // The next autocluster has those significant attributes.
    fn put(&mut self, alloc: Global, part: Ad) -> Result<(), Memory>
        requires { All (λ p. p ≢ part) self.old.parts }
        ensures put { OnOk result (self.new
            ≡ record self.old { parts = self.old.parts ++ part ∷ [] }) }
        ensures same { OnErr result (self.new ≡ self.old) }
    {
        let place = self.len();
        self.parts.reserve(1)?;
        put_under(alloc, &mut self.places, part_digest(&part), place)?;
        self.parts.push(part).unwrap();
        Ok(())
    }
}

fn number_of(place: usize) -> Result<u32, Memory>
    ensures { IfOk result (λ n. n ≡ place) }
{
    match u32::try_from(place) {
        Ok(number) => Ok(number),
        Err(_) => Err(Memory),
    }
}

// The names of an ad.
fn names_of(alloc: Global, ad: &Ad) -> Result<Vec<Text>, Memory>
    ensures { IfOk result (λ xs. xs.items ≡ names ad.now) }
{
    let mut names = Vec::with_capacity(alloc, ad.len())?;
    for place in 0..ad.len() {
        add_name(alloc, ad, place, &mut names)?;
    }
    Ok(names)
}

// Adds the name of the attribute at a place of an ad.
fn add_name(alloc: Global, ad: &Ad, place: usize, names: &mut Vec<Text>) -> Result<(), Memory>
    ensures { OnOk result (
        names.new.items ≡ names.old.items ++ name_of (slice_get ad.now place)) }
{
    if let Some((name, _)) = ad.attribute(place) {
        let name = Text::from_str(alloc, name)?;
        names.push(name)?;
    }
    Ok(())
}

/// The names of a job's significant attributes over a list of slots, as the job spells them and in
/// its order (HTCondor manual, SIGNIFICANT_ATTRIBUTES): those that can influence a match or a rank.
/// Computes as `Clusters::new` and `cluster_of`.
pub fn significant(alloc: Global, slots: &AdList, job: &Ad) -> Result<TextList, Memory>
    ensures { IfOk result (Significant slots.now job.now) }
{
    let links = links_of(alloc, slots)?;
    let part = part_of(alloc, links.as_slice(), job)?;
    Ok(Seq::from_vec(names_of(alloc, &part)?))
}
