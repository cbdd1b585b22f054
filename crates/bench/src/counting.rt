ghost use Rattle.std.specs.Prelude.{◌≡◌, ◌<◌};
ghost use Rattle.matchmaker.specs.Snapshots.{IsSnapshot};

use ad_eval::Steps;
use ad_value::Memory;
use matchmaker::Snapshot;
use negotiate::cycle;
use pool_mail::MatchList;
use std::alloc::Global;
use std::marker::Brand;
use std::sync::ledger::{Blank, Ledger};

/// The matches of a cycle of the snapshot.
pub(crate) fn cycle_of(alloc: Global, snapshot: &Snapshot) -> Result<MatchList, Memory>
    requires { IsSnapshot snapshot.now }
{
    counted_cycle::<Brand>(alloc, snapshot, Blank::new(1))
}

// The ledger counts the judgements.
fn counted_cycle<L: Ledger>(
    alloc: Global,
    snapshot: &Snapshot,
    blank: Blank,
) -> Result<MatchList, Memory>
    requires name { blank.name ≡ L.name }
    requires parts { blank.parts ≡ L.parts }
    requires some { 0 < blank.parts }
    requires snapshot { IsSnapshot snapshot.now }
{
    let mut steps = Steps::<L>::new(blank);
    cycle(alloc, snapshot, &mut steps)
}
