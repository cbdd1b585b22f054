ghost use Rattle.std.specs.Prelude.{◌≡◌, ◌≤◌, true, [], None, IfOk, IfErr, IsErrAnd, MatchOption};
ghost use Rattle.std.specs.Str.{IsUtf8};
ghost use Rattle.pool_outer.specs.Cause.{Rose};
ghost use Rattle.pool_outer.specs.Files.{SameFiles};
ghost use Rattle.pool_config.specs.Configuration.{configuration_of, HaveSlots, IsWithinLimits};
ghost use Rattle.pool_config.specs.declared.config.TheConstants.{MAX_MACHINES};
ghost use Rattle.thin_pool.specs.Histories.{submissions_in};
ghost use Rattle.thin_pool.specs.Reactions.{opening_pool};
ghost use Rattle.pool_input.specs.Faults.{IsFileFault, IsStatusUnlessFault, UnlessFault, UnlessOut};
ghost use Rattle.pool_input.specs.Input.{HasSubmitted, IsConfigFile, IsConfigRefused, IsOfFiles, IsRefusedByFiles, IsRefusedOf, ArePlaced, pool_slot, pool_slots};
ghost use Rattle.pool_input.specs.declared.status.Status.{Status};
ghost use Rattle.pool_input.specs.Status.{stage_of, IsAtFiles};
ghost use Rattle.pool_input.specs.Submissions.{HasNoText, IsTextOf, StopsAt, Submits};
ghost use Rattle.pool_input.specs.Words.{file_names};

use crate::Named;
use crate::fault::{Fault, config_fault, fault_status};
use crate::files::read_file;
use crate::status::{Kind, Status};
use crate::submitting::submit_files;
use ad_value::{Copied, Memory, Text};
use pool_config::{Config, ConfiguredSlot, configured_slots, read};
use pool_outer::{Clock, Store};
use std::alloc::Global;
use thin_pool::{Course, PoolSlot, PoolSlotList};

/// The pool of the files that a command names: with the slots of the configuration, and with the
/// jobs of the submit files, in order, each file as one submission. The status says why where it
/// can't be had. Computes in O(bytes of the files), and in what the jobs of the submit files take.
pub fn load<D: Store, C: Clock>(
    alloc: Global,
    store: &mut D,
    clock: &C,
    named: &Named<'_>,
) -> Result<Course, Status>
    // What is answered of the files.
    ensures ok { D.tells store.old ≡ true → IfOk result (λ c. IsOfFiles (C.allows clock.now)
        (D.file store.old) named.now.config.now (file_names named.now.submits.items)
        c.opening c.list) }
    ensures submitted { IfOk result (HasSubmitted (C.allows clock.now)) }
    ensures refused { D.tells store.old ≡ true
        → IfErr result (UnlessFault (IsRefusedOf (C.allows clock.now)
        (D.file store.old) named.now.config.now (file_names named.now.submits.items))) }
    ensures refused_comes { D.tells store.old ≡ true → (s : Status)
        → IsRefusedByFiles (D.file store.old) named.now.config.now
        (file_names named.now.submits.items) s → IsErrAnd result (IsStatusUnlessFault s) }
    ensures early { IfErr result (λ s. IsAtFiles (stage_of s)) }
    ensures disk_fault { IfErr result
        (λ s. s ≡ Status.DiskFault → Rose (D.faults store.old) (D.faults store.new)) }

    // The files themselves.
    ensures same { D.tells store.old ≡ true
        → SameFiles (D.file store.old) (D.file store.new) (D.solid store.old) (D.solid store.new) }
{
    match load_config(alloc, store, named.config) {
        Ok(config) => load_submits(alloc, store, clock, &config, named.submits.as_slice()),
        Err(fault) => Err(fault_status(alloc, named.config, fault)),
    }
}

// The pool of a configuration, with what the submit files ask for.
fn load_submits<D: Store, C: Clock>(
    alloc: Global,
    store: &mut D,
    clock: &C,
    config: &Config,
    names: &[&str],
) -> Result<Course, Status>
    requires within { IsWithinLimits (configuration_of config.now) }
    requires each { HaveSlots (configuration_of config.now).machines }

    // What is answered of the files.
    ensures opening { IfOk result
        (λ c. c.opening ≡ opening_pool (pool_slots (configuration_of config.now))) }
    ensures ok { D.tells store.old ≡ true → IfOk result (λ c. Submits (C.allows clock.now)
        (D.file store.old) config.now.owner (file_names names.now) c.opening
        (submissions_in c.list) None) }
    ensures submitted { IfOk result (HasSubmitted (C.allows clock.now)) }
    ensures refused { D.tells store.old ≡ true
        → IfErr result (UnlessFault (StopsAt (C.allows clock.now)
        (D.file store.old) config.now.owner (file_names names.now)
        (opening_pool (pool_slots (configuration_of config.now))))) }
    ensures early { IfErr result (λ s. IsAtFiles (stage_of s)) }
    ensures disk_fault { IfErr result
        (λ s. s ≡ Status.DiskFault → Rose (D.faults store.old) (D.faults store.new)) }

    // The files themselves.
    ensures same { D.tells store.old ≡ true
        → SameFiles (D.file store.old) (D.file store.new) (D.solid store.old) (D.solid store.new) }
    ensures later { D.faults store.old ≤ D.faults store.new }
{
    let mut course = match open(alloc, config) {
        Ok(course) => course,
        Err(_) => return Err(Status::Memory),
    };
    match submit_files(
        alloc,
        store,
        clock,
        config.owner.as_str(),
        names,
        &mut course,
    ) {
        Ok(()) => Ok(course),
        Err(status) => Err(status),
    }
}

// The pool of a configuration, to which nothing has happened.
fn open(alloc: Global, config: &Config) -> Result<Course, Memory>
    requires within { IsWithinLimits (configuration_of config.now) }
    requires each { HaveSlots (configuration_of config.now).machines }
    ensures opening { IfOk result
        (λ c. c.opening ≡ opening_pool (pool_slots (configuration_of config.now))) }
    ensures list { IfOk result (λ c. c.list ≡ []) }
    ensures pool { IfOk result (λ c. c.pool ≡ c.opening) }
    ensures placed { IfOk result (λ c. ArePlaced c.opening.slots MAX_MACHINES) }
{
    let slots = pool_slots(alloc, config)?;
    let course = Course::open(alloc, slots)?;
    Ok(course)
}

// The slots of a configuration, as the pool has them.
fn pool_slots(alloc: Global, config: &Config) -> Result<PoolSlotList, Memory>
    requires { IsWithinLimits (configuration_of config.now) }
    ensures { IfOk result (λ s. s ≡ pool_slots (configuration_of config.now)) }
{
    let configured = configured_slots(alloc, config)?;
    let each = configured.as_slice();
    let mut slots = PoolSlotList::new(alloc);
    for slot in each {
        slots.push(pool_slot(alloc, slot)?)?;
    }
    Ok(slots)
}

fn pool_slot(alloc: Global, slot: &ConfiguredSlot) -> Result<PoolSlot, Memory>
    ensures { IfOk result (λ s. s ≡ pool_slot slot.now) }
{
    Ok(PoolSlot {
        slot: slot.slot,
        name: slot.name.copy(alloc)?,
        ad: slot.ad.copy(alloc)?,
    })
}

/// Reads a configuration.
pub(crate) fn load_config<D: Store>(
    alloc: Global,
    store: &mut D,
    name: &str,
) -> Result<Config, Fault>
    // What is answered of the file.
    ensures ok { D.tells store.old ≡ true → IfOk result
        (λ c. IsConfigFile (D.file store.old name.now) (configuration_of c)) }
    ensures within { IfOk result (λ c. IsWithinLimits (configuration_of c)) }
    ensures each { IfOk result (λ c. HaveSlots (configuration_of c).machines) }
    ensures refused { D.tells store.old ≡ true
        → IfErr result (UnlessOut (IsConfigRefused (D.file store.old name.now))) }
    ensures of_files { IfErr result IsFileFault }
    ensures disk_fault { IfErr result
        (λ f. f ≡ Fault.Disk → Rose (D.faults store.old) (D.faults store.new)) }

    // The store.
    ensures same { D.tells store.old ≡ true
        → SameFiles (D.file store.old) (D.file store.new) (D.solid store.old) (D.solid store.new) }
    ensures told { D.tells store.new ≡ D.tells store.old }
    ensures later { D.faults store.old ≤ D.faults store.new }
{
    match read_text(alloc, store, name) {
        Ok(text) => match read(alloc, text.as_str()) {
            Ok(config) => Ok(config),
            Err(error) => Err(config_fault(&error)),
        },
        Err(fault) => Err(fault),
    }
}

/// Reads the text of a file.
pub(crate) fn read_text<D: Store>(alloc: Global, store: &mut D, name: &str) -> Result<Text, Fault>
    // What is answered of the file.
    ensures ok { D.tells store.old ≡ true → IfOk result (IsTextOf (D.file store.old name.now)) }
    ensures refused { D.tells store.old ≡ true
        → IfErr result (UnlessOut (HasNoText (D.file store.old name.now))) }
    ensures of_files { IfErr result IsFileFault }
    ensures disk_fault { IfErr result
        (λ f. f ≡ Fault.Disk → Rose (D.faults store.old) (D.faults store.new)) }

    // The store.
    ensures same { D.tells store.old ≡ true
        → SameFiles (D.file store.old) (D.file store.new) (D.solid store.old) (D.solid store.new) }
    ensures told { D.tells store.new ≡ D.tells store.old }
    ensures later { D.faults store.old ≤ D.faults store.new }
{
    match read_file(alloc, store, name) {
        Ok(bytes) => match text_of(bytes) {
            Some(text) => Ok(text),
            None => Err(Fault::Refused {
                line: 0,
                kind: Kind::NotText,
            }),
        },
        Err(error) => Err(Fault::from(error)),
    }
}

fn text_of(bytes: Vec<u8>) -> Option<Text>
    ensures { MatchOption result (¬ IsUtf8 bytes.items)
        (λ text. (text ≡ bytes.items) × IsUtf8 bytes.items) }
{
    match String::from_utf8(bytes) {
        Ok(text) => Some(Text::from(text)),
        Err(_) => None,
    }
}
