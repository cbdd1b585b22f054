// The slots of a configuration and their ads.

ghost use Rattle.std.specs.Prelude.{◌≡◌, ◌≤◌, ◌++◌, length, map, All, IfOk, OnOk, slice_get};
ghost use Rattle.ad_tree.specs.Ad.{with_attribute};
ghost use Rattle.ad_tree.specs.Tree.{tree};
ghost use Rattle.pool_config.specs.Configuration.{configuration_of, machine_of, total_slots, HasRoom, IsWithinLimits};
ghost use Rattle.pool_config.specs.Slots.{slot_name, slot_ad, pool_attributes, and_attribute, with_attributes, configured_slot, configured_slots, slots_from, slots_upto};

use crate::{Config, MAX_MACHINES, MAX_SLOTS, Machine};
use ad_rows::{Given, ad_of};
use ad_tree::{Ad, Expr};
use ad_value::names::matching::{RANK, REQUIREMENTS};
use ad_value::names::slot::{
    ARCH, CPUS, DISK, MACHINE, MEMORY, MY_TYPE, NAME, OP_SYS, SLOT_ID, START,
};
use ad_value::{Copied, Memory, Seq, Text};
use claim_id::SlotId;
use std::alloc::Global;

/// A slot of a configuration.
pub struct ConfiguredSlot {
    pub slot: SlotId,
    /// `slotK@MACHINE` (HTCondor manual, Machine ClassAd Attributes, Name).
    pub name: Text,
    /// What the slot tells of itself, which does not change.
    pub ad: Ad,
}

impl Drop for ConfiguredSlot {
    fn drop(self) {
        let ConfiguredSlot {
            slot: _,
            name: _name,
            ad: _ad,
        } = self;
    }
}

/// A list of slots of a configuration.
pub type ConfiguredSlotList = Seq<ConfiguredSlot>;

impl Copied for ConfiguredSlot {
    // The ads share their table.
    fn copy(&self, alloc: Global) -> Result<ConfiguredSlot, Memory> {
        Ok(ConfiguredSlot {
            slot: self.slot,
            name: self.name.copy(alloc)?,
            ad: self.ad.copy(alloc)?,
        })
    }
}

/// The slots of a configuration: of the machines in order, and of each machine from 1. Computes in
/// O(size of the ads).
pub fn configured_slots(alloc: Global, config: &Config) -> Result<ConfiguredSlotList, Memory>
    requires { IsWithinLimits (configuration_of config.now) }
    ensures { IfOk result (λ s. s ≡ configured_slots (configuration_of config.now)) }
{
    slots_of(alloc, config.machines.as_slice())
}

// The slots of machines.
fn slots_of(alloc: Global, machines: &[Machine]) -> Result<ConfiguredSlotList, Memory>
    requires few { length (map machine_of machines.now) ≤ MAX_MACHINES }
    requires slots { total_slots (map machine_of machines.now) ≤ MAX_SLOTS }
    requires room { All HasRoom (map machine_of machines.now) }
    ensures { IfOk result (λ s. s ≡ slots_from 0 (map machine_of machines.now)) }
{
    let mut slots = Seq::new(alloc);
    let mut place = 0u16;
    for machine in machines {
        add_slots(alloc, &mut slots, place, machine)?;
        place += 1;
    }
    Ok(slots)
}

// Adds the slots of a machine.
fn add_slots(
    alloc: Global,
    slots: &mut ConfiguredSlotList,
    place: u16,
    machine: &Machine,
) -> Result<(), Memory>
    requires room { HasRoom (machine_of machine.now) }
    requires few { machine.now.slots ≤ MAX_SLOTS }
    ensures { OnOk result (
        slots.new ≡ slots.old ++ slots_upto place (machine_of machine.now) machine.now.slots) }
{
    for before in 0..machine.slots {
        let id = SlotId {
            machine: place,
            slot: (before + 1) as u16,
        };
        let slot = configured_slot(alloc, machine, id)?;
        slots.push(slot)?;
    }
    Ok(())
}

/// A slot of a machine. Computes in O(size of the ad).
pub fn configured_slot(
    alloc: Global,
    machine: &Machine,
    slot: SlotId,
) -> Result<ConfiguredSlot, Memory>
    requires { HasRoom (machine_of machine.now) }
    ensures { IfOk result (λ s. s ≡ configured_slot (machine_of machine.now) slot) }
{
    let name = slot_name(alloc, machine.name.as_str(), slot.slot)?;
    let ad = slot_ad(alloc, machine, name.as_str(), slot.slot)?;
    Ok(ConfiguredSlot { slot, name, ad })
}

// The name of a machine's slot.
fn slot_name(alloc: Global, machine: &str, slot: u16) -> Result<Text, Memory>
    ensures { IfOk result (λ t. t ≡ slot_name machine.now slot) }
{
    Ok(Text::from(format!(in alloc; "slot{slot}@{machine}")?))
}

// The ad of a machine's slot, with that name.
fn slot_ad(alloc: Global, machine: &Machine, name: &str, slot: u16) -> Result<Ad, Memory>
    requires named { name.now ≡ slot_name machine.now.name slot }
    requires room { HasRoom (machine_of machine.now) }
    ensures { IfOk result (λ a. a ≡ slot_ad (machine_of machine.now) slot) }
{
    let mut ad = pool_ad(
        alloc,
        machine,
        name,
        slot,
        machine.cpus,
        machine.memory,
        machine.disk,
    )?;
    add_attributes(alloc, &mut ad, &machine.attrs)?;
    Ok(ad)
}

// What the pool gives the ad of a machine's slot, with that name and these amounts.
fn pool_ad<'a>(
    alloc: Global,
    machine: &'a Machine,
    name: &'a str,
    slot: u16,
    cpus: u32,
    memory: u32,
    disk: u32,
) -> Result<Ad, Memory>
    requires named { name.now ≡ slot_name machine.now.name slot }
    requires cpus { cpus ≡ machine.now.cpus }
    requires memory { memory ≡ machine.now.memory }
    requires disk { disk ≡ machine.now.disk }
    ensures { IfOk result (λ a. a ≡ pool_attributes (machine_of machine.now) slot) }
{
    let rows = [
        (MY_TYPE, Given::Text("Machine")),
        (NAME, Given::Text(name)),
        (MACHINE, Given::Text(machine.name.as_str())),
        (SLOT_ID, Given::Integer(u64::from(slot))),
        (OP_SYS, Given::Text("LINUX")),
        (ARCH, Given::Text("X86_64")),
        (CPUS, Given::Integer(u64::from(cpus))),
        (MEMORY, Given::Integer(u64::from(memory))),
        (DISK, Given::Integer(u64::from(disk))),
        (START, Given::Expression(&machine.start)),
        (REQUIREMENTS, Given::Name(START)),
        (RANK, Given::Expression(&machine.rank)),
    ];
    ad_of(alloc, &rows)
}

// Sets an ad's attributes in another, one after the other.
fn add_attributes(alloc: Global, ad: &mut Ad, attrs: &Ad) -> Result<(), Memory>
    ensures { OnOk result (ad.new ≡ with_attributes attrs.now ad.old) }
{
    for place in 0..attrs.len() {
        add_attribute(alloc, ad, attrs, place)?;
    }
    Ok(())
}

// Sets the attribute at a place of an ad in another.
fn add_attribute(alloc: Global, ad: &mut Ad, attrs: &Ad, place: usize) -> Result<(), Memory>
    ensures { OnOk result (ad.new ≡ and_attribute (slice_get attrs.now place) ad.old) }
{
    match attrs.attribute(place) {
        Some((name, expr)) => set_copy(alloc, ad, name, expr),
        None => Ok(()),
    }
}

// Sets an equal expression under a name.
fn set_copy(alloc: Global, ad: &mut Ad, name: &str, expr: &Expr) -> Result<(), Memory>
    ensures { OnOk result (ad.new ≡ with_attribute name.now (tree expr.now) ad.old) }
{
    let expr = expr.copy(alloc)?;
    match ad.set(alloc, name, expr) {
        Ok(()) => Ok(()),
        Err(_) => Err(Memory),
    }
}
