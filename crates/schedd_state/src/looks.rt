// When the periodic expressions of jobs were looked at last, by the job and by the time.

ghost use Rattle.std.specs.Prelude.{◌≡◌, [], None, Some};
ghost use Rattle.std.specs.BTreeMap.{insert_entry};
ghost use Rattle.std.specs.Map.{lookup, remove_entry};
ghost use Rattle.std.specs.Option.{option_copied};
ghost use Rattle.queue_tx.specs.Keys.{key_cmp, same_key};
ghost use Rattle.schedd_state.specs.DueChecks.{was_checked};
ghost use Rattle.schedd_state.specs.Looks.{FirstLook, IsOldest, SetsTimes, look_of};

use crate::new_look::NewLook;
use ad_value::{Copied, Memory};
use ordered_map::{NewEntry, OrderedMap};
use queue_tx::Key;
use std::alloc::Global;
use std::cmp::Ordering;
use std::marker::Model;
use std::ops::Bound;

/// A look: when, and at which job. Looks stand by time, then by key.
#[derive(Clone, Copy)]
pub(crate) struct Look {
    pub(crate) at: u64,
    pub(crate) key: Key,
}

impl PartialEq for Look {
    ghost use Rattle.schedd_state.specs.Looks.{same_look, same_look_partial};

    ghost eq = { same_look };

    ghost laws = { same_look_partial };

    fn eq(&self, other: &Look) -> bool {
        self.cmp(other).is_eq()
    }
}

impl Eq for Look {
    ghost use Rattle.schedd_state.specs.Looks.{same_look_laws};

    ghost laws = { same_look_laws };
}

impl PartialOrd for Look {
    ghost use Rattle.std.specs.Ordering.{as_partial_cmp};
    ghost use Rattle.schedd_state.specs.Looks.{look_cmp, look_order_laws};

    ghost partial_cmp = { as_partial_cmp look_cmp };

    ghost laws = { look_order_laws };

    fn partial_cmp(&self, other: &Look) -> Option<Ordering> {
        Some(self.cmp(other))
    }
}

impl Ord for Look {
    ghost use Rattle.std.specs.Prelude.{refl};
    ghost use Rattle.schedd_state.specs.Looks.{look_cmp, look_cmp_total};

    ghost cmp = { look_cmp };

    ghost total = { look_cmp_total };

    ghost matches_partial_cmp = { λ x y. refl };

    ghost matches_eq = { λ x y. refl };

    fn cmp(&self, other: &Look) -> Ordering {
        self.at.cmp(&other.at).then(self.key.cmp(&other.key))
    }
}

/// A mark that a look is in the list.
#[derive(Clone, Copy)]
pub(crate) struct Noted;

impl Copied for Noted {
    fn copy(&self, _: Global) -> Result<Noted, Memory> {
        Ok(Noted)
    }
}

/// When a job was looked at, a reading. Contracts see the number.
#[derive(Drop)]
pub(crate) struct LookTime {
    pub(crate) at: u64,
}

impl Model for LookTime {
    ghost use Rattle.std.specs.Prelude.{ℕ};

    ghost Value = { ℕ };

    ghost view = { λ t. t.at };
}

impl Copied for LookTime {
    fn copy(&self, _: Global) -> Result<LookTime, Memory> {
        Ok(LookTime { at: self.at })
    }
}

pub(crate) type Times = OrderedMap<Look, Noted>;

/// The last look at each job that was looked at. Contracts see the times by key.
#[derive(Drop)]
pub(crate) struct Looks {
    by_job: OrderedMap<Key, LookTime>,
    by_time: Times,
}

impl Model for Looks {
    ghost use Rattle.std.specs.Prelude.{ℕ, List};
    ghost use Rattle.queue_tx.specs.declared.key.Key.{Key};

    ghost Value = { List (Key × ℕ) };

    ghost view = { λ l. l.by_job };

    ghost use Rattle.schedd_state.specs.Looks.{AreTimes};

    ghost invariant = { λ l. AreTimes l.by_time l.by_job };
}

impl Looks {
    pub(crate) fn new() -> Looks
        ensures { result ≡ [] }
    {
        Looks {
            by_job: OrderedMap::new(),
            by_time: OrderedMap::new(),
        }
    }

    /// When a job was looked at last.
    pub(crate) fn get(&self, key: &Key) -> Option<&u64>
        ensures { option_copied result ≡ lookup (same_key key.now) self.now }
    {
        let time = self.by_job.get(key)?;
        Some(&time.at)
    }

    /// Whether a job was looked at.
    pub(crate) fn has(&self, key: &Key) -> bool
        ensures { result ≡ was_checked self.now key.now }
    {
        self.by_job.get(key).is_some()
    }

    /// A job is looked at, without memory.
    pub(crate) fn put(&mut self, look: NewLook)
        ensures { self.new ≡ insert_entry key_cmp self.old look.0 look.1 }
    {
        let NewLook { entry, time } = look;
        let lost = last_look(&self.by_job, entry.key());
        give_up(&mut self.by_time, lost);
        take(&mut self.by_time, time);
        self.by_job.put(entry);
    }

    /// A job is forgotten.
    pub(crate) fn remove(&mut self, key: &Key)
        ensures { self.new ≡ remove_entry (same_key key.now) self.old }
    {
        let lost = last_look(&self.by_job, key);
        give_up(&mut self.by_time, lost);
        let _ = self.by_job.remove(key);
    }

    /// The first look past a bound.
    pub(crate) fn first(&self, start: Bound<&Look>) -> Option<Look>
        ensures { FirstLook self.now start.entry result }
    {
        let (look, _) = self.by_time.first_past(start)?;
        Some(*look)
    }

    /// The job whose last look is the longest ago, and when that was.
    pub(crate) fn oldest(&self) -> Option<(Key, u64)>
        ensures { IsOldest self.now result }
    {
        let (look, _) = self.by_time.first_past(Bound::Unbounded)?;
        Some((look.key, look.at))
    }
}

impl Copied for Looks {
    /// Computes in O(jobs looked at).
    fn copy(&self, alloc: Global) -> Result<Looks, Memory> {
        Ok(Looks {
            by_job: self.by_job.copy(alloc)?,
            by_time: self.by_time.copy(alloc)?,
        })
    }
}

// The last look at a job.
fn last_look(jobs: &OrderedMap<Key, LookTime>, key: &Key) -> Option<Look>
    ensures { result ≡ look_of key.now (lookup (same_key key.now) jobs.now) }
{
    let time = jobs.get(key)?;
    Some(Look {
        at: time.at,
        key: *key,
    })
}

// A look is no more one of the list.
fn give_up(times: &mut Times, lost: Option<Look>)
    ensures { SetsTimes lost None times.old times.new }
{
    if let Some(lost) = lost {
        let _ = times.remove(&lost);
    }
}

// A look comes to the list.
fn take(times: &mut Times, time: NewEntry<Look, Noted>)
    ensures { SetsTimes None (Some time.0) times.old times.new }
{
    times.put(time);
}
