ghost use Rattle.std.specs.Prelude.{◌≡◌, ◌↔◌, ◌<◌, IfOk, IsTrue, Some, length, map, slice_get, slice_set};
ghost use Rattle.std.specs.Option.{option_copied};
ghost use Rattle.pool_shown.specs.Slots.{all_slots, first_claimed, first_left, has_run, slot_ads, slot_at, slot_numbered, told_at};
ghost use Rattle.startd_core.specs.PreparedStartds.{startd_after};
ghost use Rattle.startd_core.specs.Sound.{IsSound};
ghost use Rattle.startd_core.specs.Startds.{StartdValue};

use crate::ads::ads_after_all;
use crate::claimed::first_claimed;
use crate::runs::{first_left, has_run_of};
use crate::told::told_slots;
use ad_tree::Ad;
use ad_value::{Copied, Memory};
use claim_id::{RunNo, SlotId};
use pool_mail::{Ending, SlotAdList};
use receipt_roll::Receipt;
use startd_core::{PreparedStartd, Startd, StartdStep};
use startd_slot::Slot;
use std::alloc::Global;
use std::marker::Model;

/// The startds of a pool, by machine. Contracts see the list of `StartdValue`s. A copy computes in
/// O(slots, the bytes of their texts, and a byte for each attribute of their ads), with memory, and
/// shares the attributes.
pub struct Machines {
    list: Vec<Startd>,
}

impl Drop for Machines {
    fn drop(self) {
        let Machines { list: _list } = self;
    }
}

impl Model for Machines {
    ghost use Rattle.std.specs.Prelude.{List};
    ghost use Rattle.std.specs.Coded.{codes};
    ghost use Rattle.startd_core.specs.contracts.startd.Startd as of_startd;
    ghost use Rattle.startd_core.specs.Startds.{StartdValue};

    ghost Value = { List StartdValue };

    ghost coded = { Prim.hlevel (codes, of_startd.the_row.coded) };

    ghost view = { λ m. m.list.items };
}

impl Copied for Machines {
    fn copy(&self, alloc: Global) -> Result<Machines, Memory> {
        let list = copy_startds(alloc, &self.list)?;
        Ok(Machines { list })
    }
}

impl Machines {
    /// The startds of these machines, without memory. Computes in O(1).
    pub fn from_vec(list: Vec<Startd>) -> Machines
        ensures { result ≡ list.items }
    {
        Machines { list }
    }

    /// How many machines there are. Computes in O(1).
    pub fn len(&self) -> usize
        ensures { result ≡ length self.now }
    {
        self.list.len()
    }

    /// The startds, by machine. Computes in O(1).
    pub fn as_slice(&self) -> &[Startd]
        ensures { result.now ≡ self.now }
    {
        self.list.as_slice()
    }

    /// The startd of a machine. Computes in O(1).
    pub fn get(&self, machine: u16) -> Option<&Startd>
        ensures { option_copied result ≡ slice_get self.now machine }
    {
        self.list.get(usize::from(machine))
    }

    /// What was prepared happens to the startd of a machine, without memory, which can't fail; what
    /// is sent and done. Computes in O(slots of the machine).
    pub fn commit(&mut self, machine: u16, prepared: PreparedStartd) -> StartdStep
        requires within { machine < length self.old }
        requires sound { (v : StartdValue) → slice_get self.old machine ≡ Some v
            → IsSound (startd_after prepared v) }
        ensures machines { (v : StartdValue) → slice_get self.old machine ≡ Some v
            → self.new ≡ slice_set self.old machine (startd_after prepared v) }
        ensures step { result ≡ prepared.step }
    {
        self.list[usize::from(machine)].commit(prepared)
    }

    /// The slot of that number. Computes in O(1).
    pub fn slot(&self, slot: SlotId) -> Option<&Slot>
        ensures { option_copied result ≡ slot_at slot self.now }
    {
        let startd = self.get(slot.machine)?;
        slot_numbered(startd.slots(), slot.slot)
    }

    /// Whether a slot of a machine has the run. Computes in O(slots of the machine).
    pub fn has_run(&self, machine: u16, run: RunNo) -> bool
        ensures { result ≡ has_run machine run self.now }
    {
        match self.get(machine) {
            Some(startd) => has_run_of(startd.slots(), run),
            None => false,
        }
    }

    /// The first run of a machine of whose end no receipt is. Computes in O(slots of the machine
    /// times receipts).
    pub fn first_left(&self, machine: u16, ended: &[Receipt<Ending>]) -> Option<RunNo>
        ensures { result ≡ first_left machine ended.now self.now }
    {
        let startd = self.get(machine)?;
        first_left(startd.slots(), ended)
    }

    /// The first slot that has a claim, or for which one waits. Computes in O(slots).
    pub fn first_claimed(&self) -> Option<SlotId>
        ensures { result ≡ first_claimed self.now }
    {
        first_claimed(self.list.as_slice())
    }

    /// Whether these are the slots' ads, in order. Computes in O(size of the ads).
    pub fn are_slot_ads(&self, ads: &[Ad]) -> bool
        ensures { IsTrue result ↔ (ads.now ≡ slot_ads self.now) }
    {
        match ads_after_all(ads, self.list.as_slice()) {
            Some(rest) => rest.is_empty(),
            None => false,
        }
    }

    /// How the slots stand, in order, told at a reading. Computes in O(slots).
    pub fn told_slots(&self, alloc: Global, at: u64) -> Result<SlotAdList, Memory>
        ensures { IfOk result (λ told. told ≡ map (told_at at) (all_slots self.now)) }
    {
        told_slots(alloc, self.list.as_slice(), at)
    }
}

fn copy_startds(alloc: Global, startds: &[Startd]) -> Result<Vec<Startd>, Memory>
    ensures { IfOk result (λ copied. copied.items ≡ startds.now) }
{
    let mut copied = Vec::new(alloc);
    for startd in startds {
        copied.push(startd.copy(alloc)?)?;
    }
    Ok(copied)
}

// The slot of that number, counted from 1.
fn slot_numbered(slots: &[Slot], number: u16) -> Option<&Slot>
    ensures { option_copied result ≡ slot_numbered number slots.now }
{
    if number == 0 {
        return None;
    }
    slots.get(usize::from(number) - 1)
}
