ghost use Rattle.std.specs.Prelude.{◌≡◌, [], OnOk, Some};
ghost use Rattle.ad_tree.specs.Tree.{tree};
ghost use Rattle.ad_rows.specs.Submitted.{own_attributes};
ghost use Rattle.submit_lines.specs.JobAds.{own_at, added, finished};

use ad_rows::MAX_OWN_ATTRIBUTES;
use ad_tree::{Ad, Expr, SetError};
use ad_value::Memory;
use ad_value::names::is_pool_name;
use std::alloc::Global;

/// The ad of a job that is being made, as long as there is room for its attributes.
#[derive(Drop)]
pub struct JobAd {
    /// None where there was no room.
    pub ad: Option<Ad>,
}

impl JobAd {
    /// The ad without attributes, without memory. Computes in O(1).
    pub fn new(alloc: Global) -> JobAd
        ensures { result.ad ≡ Some [] }
    {
        JobAd {
            ad: Some(Ad::new(alloc)),
        }
    }

    /// Puts an expression under a name, as `Ad::set` does, where there is room. Computes in
    /// O(bytes of the name) on average, where names do not collide.
    pub fn add(&mut self, alloc: Global, name: &str, expr: Expr) -> Result<(), Memory>
        ensures ok { OnOk result (self.new.ad ≡ added name.now (tree expr) self.old.ad) }
    {
        let Some(ad) = &mut self.ad else {
            return Ok(());
        };
        match ad.set(alloc, name, expr) {
            Ok(()) => Ok(()),
            Err(SetError::Full) => {
                self.ad = None;
                Ok(())
            }
            Err(SetError::Memory) => Err(Memory),
        }
    }

    /// The ad, if there was room for its attributes and it has no more than 248 beside those that
    /// the pool sets. Computes in O(attributes).
    pub fn finish(self) -> Option<Ad>
        ensures { result ≡ finished self.ad }
    {
        let JobAd { ad } = self;
        match ad {
            Some(ad) if own_attributes(&ad) <= MAX_OWN_ATTRIBUTES => Some(ad),
            _ => None,
        }
    }
}

// How many attributes the pool does not set.
#[tactic(auto, using(crate::proofs::Owns::steps))]
fn own_attributes(ad: &Ad) -> usize
    ensures { result ≡ own_attributes ad.now }
{
    let mut count = 0usize;
    for place in 0..ad.len() {
        count += own_at(ad, place);
    }
    count
}

// 1 where the pool does not set the attribute at a place, else 0.
fn own_at(ad: &Ad, place: usize) -> usize
    ensures { result ≡ own_at ad.now place }
{
    match ad.attribute(place) {
        Some((name, _)) if !is_pool_name(name) => 1,
        _ => 0,
    }
}
